//! What the guests of a row bring.

use hex::FromHexError;
use jv_host::Budget;
use jv_loader::SystemFiles;
use std::alloc::{AllocError, Global};

/// What a guest brings.
#[derive(Drop)]
pub(crate) struct Brought {
    main: Vec<u8>,
    input: Vec<u8>,
    files: Vec<Vec<u8>>,
    budget: Budget,
}

/// The same, lent to a host.
#[derive(Drop)]
pub(crate) struct Lent<'a> {
    pub(crate) system: &'a SystemFiles,
    pub(crate) main: &'a [u8],
    pub(crate) input: &'a [u8],
    pub(crate) files: Vec<&'a [u8]>,
    pub(crate) budget: Budget,
}

/// The bytes that a word spells: in hexadecimal, none as `-`, or so many zeros as the number behind `*`.
pub(crate) fn bytes_of(alloc: Global, word: &str) -> Result<Vec<u8>, AllocError> {
    if let Some(count) = word.strip_prefix('*') {
        return vec![in alloc; 0u8; number_of(count) as usize];
    }
    match hex::decode(alloc, word) {
        Ok(bytes) => Ok(bytes),
        Err(FromHexError::OutOfMemory) => Err(AllocError),
        Err(_) => Ok(Vec::new(alloc)),
    }
}

/// The number that a word spells, or 0.
pub(crate) fn number_of(word: &str) -> u32 {
    match word.parse::<u32>() {
        Ok(number) => number,
        Err(_) => 0,
    }
}

/// What stands in front of the first space, and what stands behind it.
pub(crate) fn first_word(text: &str) -> (&str, &str) {
    match text.split_once(' ') {
        Some(both) => both,
        None => (text, ""),
    }
}

/// Adds the files that words spell.
fn add_files(files: &mut Vec<Vec<u8>>, words: &str) -> Result<(), AllocError> {
    let alloc = *files.allocator();
    if !words.is_empty() {
        for word in words.split(' ') {
            files.push(bytes_of(alloc, word)?)?;
        }
    }
    Ok(())
}

/// What a line brings behind its first word: the main class's name, the cells, words and bytes of output, the input, and the files.
fn brought_of(alloc: Global, line: &str) -> Result<Brought, AllocError> {
    let (main, rest) = first_word(line);
    let (cells, rest) = first_word(rest);
    let (words, rest) = first_word(rest);
    let (output, rest) = first_word(rest);
    let (input, rest) = first_word(rest);
    let mut files = Vec::new(alloc);
    add_files(&mut files, rest)?;
    Ok(Brought {
        main: bytes_of(alloc, main)?,
        input: bytes_of(alloc, input)?,
        files,
        budget: Budget {
            cells: number_of(cells),
            words: number_of(words),
            output: number_of(output),
        },
    })
}

/// What the guests of a row bring, in the order of its lines.
pub(crate) fn brought_in(alloc: Global, row: &str) -> Result<Vec<Brought>, AllocError> {
    let mut brought = Vec::new(alloc);
    for line in row.lines() {
        let (verb, rest) = first_word(line);
        if verb == "guest" {
            brought.push(brought_of(alloc, rest)?)?;
        }
    }
    Ok(brought)
}

/// The files that each guest of a row brings behind its own.
pub(crate) fn beside_in(alloc: Global, row: &str) -> Result<Vec<Vec<u8>>, AllocError> {
    let mut files = Vec::new(alloc);
    for line in row.lines() {
        let (verb, rest) = first_word(line);
        if verb == "beside" {
            add_files(&mut files, rest)?;
        }
    }
    Ok(files)
}

/// What a guest brings, as a host takes it, with these files behind its own.
pub(crate) fn lent_of<'a>(
    alloc: Global,
    system: &'a SystemFiles,
    guest: &'a Brought,
    beside: &'a [Vec<u8>],
) -> Result<Lent<'a>, AllocError> {
    let mut files: Vec<&[u8]> = Vec::new(alloc);
    for file in &guest.files {
        files.push(file.as_slice())?;
    }
    for file in beside {
        files.push(file.as_slice())?;
    }
    Ok(Lent {
        system,
        main: &guest.main,
        input: &guest.input,
        files,
        budget: guest.budget,
    })
}
