//! Ranks of classes: those of a class and of the classes below it are an interval, where it is no interface.

ghost use Rattle.std.specs.Prelude.{◌≡◌, ◌<◌, ◌≤◌, IfOk, IfSome, IsTrue, length};
ghost use Rattle.jv_meaning_world.specs.Numbers.{HoldsAtBoth};
ghost use Rattle.jv_link_cache.specs.Handlers.{is_of};
ghost use Rattle.jv_link_cache.specs.Inside.Ranks.{rank_of, IsTold, IsSpan, AreSpans};

use jv_loader::ClassTable;
use std::alloc::{AllocError, Global};

/// A class without a rank, which can't be loaded.
pub(crate) const NO_RANK: u16 = 65_535;

/// The ranks from `low` up to `high`, which is not among them.
#[derive(Clone, Copy)]
pub(crate) struct Span {
    pub(crate) low: u16,
    pub(crate) high: u16,
}

/// The rank of each class that can be loaded, and how many of these are the class itself or below it on the chain of superclasses.
#[derive(Drop)]
pub(crate) struct Ranks {
    pub(crate) ranks: Vec<u16>,
    pub(crate) sizes: Vec<u16>,
}

/// One more at a class.
fn count_one(sizes: &mut [u16], class: usize) {
    if class < sizes.len() {
        sizes[class] = sizes[class].saturating_add(1);
    }
}

/// How many classes that can be loaded are a class itself or below it.
fn sizes_of(alloc: Global, table: &ClassTable<'_>) -> Result<Vec<u16>, AllocError> {
    let mut sizes = vec![in alloc; 0u16; table.count()]?;
    for class in 0..table.count() {
        if table.is_loadable(class) {
            count_one(&mut sizes, class);
            for above in table.superclasses(class) {
                count_one(&mut sizes, usize::from(*above));
            }
        }
    }
    Ok(sizes)
}

/// Gives a class the next rank that is left below another one, unless it has one. The ranks behind it, as many as there are classes
/// below it, are left for these.
fn give_rank(ranks: &mut [u16], nexts: &mut [u16], sizes: &[u16], class: usize, above: usize) {
    if class < ranks.len()
        && class < sizes.len()
        && class < nexts.len()
        && above < nexts.len()
        && ranks[class] == NO_RANK
    {
        let rank = nexts[above];
        ranks[class] = rank;
        nexts[class] = rank.saturating_add(1);
        nexts[above] = rank.saturating_add(sizes[class]);
    }
}

/// Gives a class a rank, and first its superclasses, the highest one behind all that has one already.
fn give_ranks(ranks: &mut [u16], nexts: &mut [u16], sizes: &[u16], class: usize, chain: &[u16]) {
    let mut above = ranks.len();
    for superclass in chain.iter().rev() {
        give_rank(ranks, nexts, sizes, usize::from(*superclass), above);
        above = usize::from(*superclass);
    }
    give_rank(ranks, nexts, sizes, class, above);
}

/// The ranks of classes. That they are intervals is not said; each span is looked through.
pub(crate) fn ranks_of(alloc: Global, table: &ClassTable<'_>) -> Result<Ranks, AllocError> {
    let sizes = sizes_of(alloc, table)?;
    let mut ranks = vec![in alloc; NO_RANK; table.count()]?;
    let mut nexts = vec![in alloc; 0u16; table.count()]?;
    nexts.push(0)?;
    for class in 0..table.count() {
        if table.is_loadable(class) {
            give_ranks(
                &mut ranks,
                &mut nexts,
                &sizes,
                class,
                table.superclasses(class),
            );
        }
    }
    Ok(Ranks { ranks, sizes })
}

/// The rank of a class.
pub(crate) fn rank_of(ranks: &[u16], class: usize) -> u16
    ensures { result ≡ rank_of ranks.now class }
{
    if class < ranks.len() {
        ranks[class]
    } else {
        NO_RANK
    }
}

/// Whether a class is another one, or below it.
pub(crate) fn is_of(table: &ClassTable<'_>, class: usize, other: usize) -> bool
    requires class { class < length table.now }
    requires other { other < length table.now }
    ensures { HoldsAtBoth table.now class other (λ l to. result ≡ is_of table.now l to.class.name) }
{
    table.is_numbered();
    class == other || table.is_above(other, class)
}

/// Whether a span tells of a class that it is another one, or below that.
fn is_told(table: &ClassTable<'_>, ranks: &[u16], span: Span, class: usize, other: usize) -> bool
    requires class { class < length table.now }
    requires other { other < length table.now }
    ensures { IsTrue result → IsTold table.now ranks.now span class other }
{
    let rank = rank_of(ranks, other);
    let is_in = span.low <= rank && rank < span.high;
    rank == NO_RANK || is_in == is_of(table, other, class)
}

/// The span of a class, where its ranks and those of the classes below it are one.
pub(crate) fn span_of(table: &ClassTable<'_>, ranks: &Ranks, class: usize) -> Option<Span>
    requires { class < length table.now }
    ensures { IfSome result (IsSpan table.now ranks.now.ranks.items class) }
{
    if class >= ranks.sizes.len() {
        return None;
    }
    let low = rank_of(&ranks.ranks, class);
    let high = low.saturating_add(ranks.sizes[class]);
    let span = Span { low, high };
    for other in 0..table.count() {
        if !is_told(table, &ranks.ranks, span, class, other) {
            return None;
        }
    }
    Some(span)
}

/// The span of each class, where they are asked for.
pub(crate) fn spans_of(
    alloc: Global,
    table: &ClassTable<'_>,
    ranks: &Ranks,
    asked: bool,
) -> Result<Vec<Option<Span>>, AllocError>
    ensures { IfOk result (λ spans. AreSpans table.now ranks.now.ranks.items (length table.now) spans.items) }
{
    let mut spans = Vec::with_capacity(alloc, table.count())?;
    for class in 0..table.count() {
        let span = if asked {
            span_of(table, ranks, class)
        } else {
            None
        };
        spans.push(span)?;
    }
    Ok(spans)
}
