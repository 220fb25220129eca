//! Which method invokevirtual runs where classes of several packages declare it (JVMS 5.4.5, 6.5).

use crate::guest::{Table, wrong_row};
use std::hash::RandomState;

static CLASSES: &str = "\
-- each extends the one before it
public p/A java/lang/Object | public m ()V\
 | package one ()V | package two ()V | package three ()V | package four ()V | public five ()V | package six ()V\
 | private seven ()V | public+final eight ()V | protected nine ()V | public ten ()V | protected+final eleven ()V
public q/B p/A | public m ()V\
 | public one ()V | package five ()V | package six ()V | public seven ()V
public p/C q/B | public m ()V\
 | public one ()V | package two ()V | private three ()V | protected four ()V | private five ()V | public six ()V | public seven ()V | public+static ten ()V
public q/D p/C | public m ()V\
 | public one ()V | public two ()V | public three ()V | package four ()V | public five ()V | package six ()V | private eight ()V | protected nine ()V
public r/E q/D\
 | package one ()V | public two ()V | public four ()V
public r/F r/E
-- likewise
public p/G java/lang/Object | public m ()V | package one ()V
public p/H p/G | protected one ()V
public p/J p/H | package one ()V
public q/K p/J | public one ()V
public r/L q/K | package one ()V
-- likewise
public p/M java/lang/Object | public m ()V | package one ()V | package two ()V
public q/N p/M | public m ()V | package one ()V | public two ()V
public p/O q/N | package two ()V
public r/P p/O | public one ()V | public two ()V
-- likewise
public+abstract p/S java/lang/Object | public+abstract one ()V | public two ()V
public p/T p/S | public+final equals (Ljava/lang/Object;)Z
public p/U p/T | public one ()V
public+abstract q/V p/U | public+abstract one ()V | public+abstract two ()V
public q/W q/V";

static ROWS: &str = "\
-- package-private in A, public from B on: C overrides it in its own package, and so is it overridden by way of C
p/A m invokevirtual Methodref p/A one ()V p/A = p/A
p/A m invokevirtual Methodref p/A one ()V q/B = p/A
p/A m invokevirtual Methodref p/A one ()V p/C = p/C
p/A m invokevirtual Methodref p/A one ()V q/D = q/D
p/A m invokevirtual Methodref p/A one ()V r/E = r/E
p/A m invokevirtual Methodref p/A one ()V r/F = r/E
p/A m invokevirtual Methodref q/B one ()V q/B = q/B
p/A m invokevirtual Methodref q/B one ()V p/C = p/C
p/A m invokevirtual Methodref q/B one ()V q/D = q/D
p/A m invokevirtual Methodref q/B one ()V r/F = r/E
-- package-private in A and in C
p/A m invokevirtual Methodref p/A two ()V q/B = p/A
p/A m invokevirtual Methodref p/A two ()V p/C = p/C
p/A m invokevirtual Methodref p/A two ()V q/D = p/C
p/A m invokevirtual Methodref p/A two ()V r/F = p/C
p/A m invokevirtual Methodref q/B two ()V p/C = p/C
p/A m invokevirtual Methodref p/C two ()V q/D = p/C
p/A m invokevirtual Methodref q/D two ()V q/D = q/D
p/A m invokevirtual Methodref q/D two ()V r/F = r/E
-- package-private in A and private in C, which overrides nothing and is not overridden
p/A m invokevirtual Methodref p/A three ()V p/C = p/A
p/A m invokevirtual Methodref p/A three ()V q/D = p/A
p/C m invokevirtual Methodref p/C three ()V p/C = p/C
p/C m invokevirtual Methodref p/C three ()V q/D = p/C
-- protected in C
p/A m invokevirtual Methodref p/A four ()V q/B = p/A
p/A m invokevirtual Methodref p/A four ()V p/C = p/C
p/A m invokevirtual Methodref p/A four ()V q/D = q/D
p/A m invokevirtual Methodref p/A four ()V r/E = r/E
-- public in A: what is less open overrides it, unless it is private
p/A m invokevirtual Methodref p/A five ()V q/B = q/B
p/A m invokevirtual Methodref p/A five ()V p/C = q/B
p/A m invokevirtual Methodref p/A five ()V q/D = q/D
p/A m invokevirtual Methodref p/A five ()V r/F = q/D
-- package-private in A and, of another package, in B
p/A m invokevirtual Methodref p/A six ()V q/B = p/A
p/A m invokevirtual Methodref p/A six ()V p/C = p/C
p/A m invokevirtual Methodref p/A six ()V q/D = q/D
p/A m invokevirtual Methodref p/A six ()V r/F = q/D
q/B m invokevirtual Methodref q/B six ()V q/B = q/B
q/B m invokevirtual Methodref q/B six ()V p/C = q/B
q/B m invokevirtual Methodref q/B six ()V q/D = q/D
-- private in A
p/A m invokevirtual Methodref p/A seven ()V p/A = p/A
p/A m invokevirtual Methodref p/A seven ()V q/B = p/A
p/A m invokevirtual Methodref p/A seven ()V r/F = p/A
p/A m invokevirtual Methodref q/B seven ()V q/B = q/B
p/A m invokevirtual Methodref q/B seven ()V r/F = p/C
-- final in A, though D has a private one
p/A m invokevirtual Methodref p/A eight ()V p/A = p/A
p/A m invokevirtual Methodref p/A eight ()V p/C = p/A
p/A m invokevirtual Methodref p/A eight ()V q/D = p/A
p/A m invokevirtual Methodref p/A eight ()V r/F = p/A
p/A m invokevirtual Methodref p/A eleven ()V r/F = p/A
-- protected in A
p/A m invokevirtual Methodref p/A nine ()V p/C = p/A
p/A m invokevirtual Methodref p/A nine ()V q/D = q/D
p/A m invokevirtual Methodref p/A nine ()V r/F = q/D
-- a static method overrides nothing, and is what invokestatic runs
p/A m invokevirtual Methodref p/A ten ()V p/C = p/A
p/A m invokevirtual Methodref p/A ten ()V r/F = p/A
p/A m invokestatic Methodref p/C ten ()V p/A = p/C
p/A m invokestatic Methodref r/F ten ()V [ = p/C
-- package-private in G, protected in H, package-private in J
p/G m invokevirtual Methodref p/G one ()V p/H = p/H
p/G m invokevirtual Methodref p/G one ()V p/J = p/J
p/G m invokevirtual Methodref p/G one ()V q/K = q/K
p/G m invokevirtual Methodref p/G one ()V r/L = r/L
-- in three packages, with nothing between that is overridden by both ways
p/M m invokevirtual Methodref p/M one ()V q/N = p/M
p/M m invokevirtual Methodref p/M one ()V r/P = p/M
q/N m invokevirtual Methodref q/N one ()V r/P = q/N
p/M m invokevirtual Methodref p/M two ()V q/N = p/M
p/M m invokevirtual Methodref p/M two ()V p/O = p/O
p/M m invokevirtual Methodref p/M two ()V r/P = p/O
p/M m invokevirtual Methodref q/N two ()V p/O = p/O
p/M m invokevirtual Methodref q/N two ()V r/P = r/P
-- abstract
p/A m invokevirtual Methodref p/S one ()V p/T = AbstractMethodError
p/A m invokevirtual Methodref p/S one ()V p/U = p/U
p/A m invokevirtual Methodref p/S one ()V q/W = AbstractMethodError
p/A m invokevirtual Methodref p/S two ()V p/U = p/S
p/A m invokevirtual Methodref p/S two ()V q/W = AbstractMethodError
-- of java/lang/Object
p/A m invokevirtual Methodref java/lang/Object equals (Ljava/lang/Object;)Z p/A = java/lang/Object
p/A m invokevirtual Methodref java/lang/Object equals (Ljava/lang/Object;)Z q/W = p/T
p/A m invokevirtual Methodref java/lang/Object equals (Ljava/lang/Object;)Z java/lang/String = java/lang/String
p/A m invokevirtual Methodref p/A equals (Ljava/lang/Object;)Z r/F = java/lang/Object
-- an array has the methods of java/lang/Object
p/A m invokevirtual Methodref java/lang/Object equals (Ljava/lang/Object;)Z [ = java/lang/Object
p/A m invokevirtual Methodref [I equals (Ljava/lang/Object;)Z [ = java/lang/Object
p/A m invokevirtual Methodref [Lp/T; equals (Ljava/lang/Object;)Z [ = java/lang/Object";

#[test]
fn overriding_methods_run(rt: HostRuntime) {
    match RandomState::new(&rt) {
        Ok(state) => {
            let wrong = wrong_row(rt.alloc(), state, CLASSES, Table::Selections, ROWS);
            assert!(rt; wrong == "", "{wrong}");
        }
        Err(_) => assert!(rt; false),
    }
}
