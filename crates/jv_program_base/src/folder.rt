//! What a folder holds of a guest.
ghost use Rattle.std.specs.Prelude.{◌≡◌, ◌≢◌, ◌≤◌, ◌+◌, ◌<◌, ◌^◌, ◌⊎◌, [], All, IfErr, IfOk, IsErr, IsOk, List, codes, false, true, map, vec_len};
ghost use Rattle.std.specs.IoError.{error_kind};
ghost use Rattle.jv_limits.specs.Bytes.{bytes_of};
ghost use Rattle.jv_program_base.specs.Disk.{IsListedAt, IsReadAt, LacksFileUpTo, LacksFolderUpTo};
ghost use Rattle.jv_program_base.specs.Folder.{AreClassFilesIn, AreClassFilesOf, IsFileIn, IsFolderOf, IsFolderRead, IsMainIn, file_bytes, file_name};
ghost use Rattle.jv_program_base.specs.Folder.{folder_path, path_in};
ghost use Rattle.jv_program_base.specs.Names.{is_listed_name};
ghost use Rattle.jv_program_base.specs.Unread.{IsFirstMissing, IsNoClassFile, IsNoClassFolder, IsNoFile, IsNoFolder, IsNoListing, IsUnread};
ghost use Rattle.jv_program_base.specs.Inside.Reading.{IsNoFileOf};

use crate::failure::Failure;
use crate::folders::Folders;
use crate::names::{class_file_names, is_listed_name, names_in};
use std::alloc::{AllocError, Global};
use std::io;
use std::io::{Error, ErrorKind};

/// The most bytes of a class file, and of the file `main`.
const CLASS_FILE_LIMIT: usize = 4_194_304;

/// The most bytes of the file `input`.
const INPUT_LIMIT: usize = 16_777_216;

/// The most bytes of a folder's listing.
const LISTING_LIMIT: usize = 0x1_0000_0000;

/// A class file.
#[derive(Drop)]
pub struct NamedFile {
    /// Its name in the folder.
    pub name: Vec<u8>,
    /// Its bytes, or one more than the limit where there are more than that.
    pub bytes: Vec<u8>,
}

/// What a folder holds of a guest.
#[derive(Drop)]
pub struct Folder<'a> {
    /// The word for it, as it was given.
    pub word: &'a str,
    /// Its class files, in byte order of their names.
    pub class_files: Vec<NamedFile>,
    /// The bytes of its file `main`.
    pub main: Vec<u8>,
    /// The bytes of its file `input`, or none where there is no such file.
    pub input: Vec<u8>,
}

/// The path of a file in a folder.
pub(crate) fn path_in(alloc: Global, folder: &str, name: &[u8]) -> Result<Vec<u8>, AllocError>
    ensures { IfOk result (λ path. path.items ≡ path_in folder.now name.now) }
{
    let mut path = Vec::from_slice(alloc, folder.as_bytes())?;
    path.push(b'/')?;
    path.extend_from_slice(name)?;
    Ok(path)
}

/// What an error of the system means for the file or folder that is told so.
fn failure_at(told: Vec<u8>, error: &Error) -> Failure
    ensures { ((error_kind error.now ≡ ErrorKind.OutOfMemory) × (result ≡ Failure.OutOfMemory))
        ⊎ ((error_kind error.now ≢ ErrorKind.OutOfMemory) × (result ≡ Failure.Unreadable told)) }
{
    if error.kind() == ErrorKind::OutOfMemory {
        Failure::OutOfMemory
    } else {
        Failure::Unreadable(told)
    }
}

/// The bytes of the file at a path, or one more than the limit where there are more than that.
fn read_at<F: Folders>(
    alloc: Global,
    folders: &mut F,
    path: Vec<u8>,
    limit: usize,
) -> Result<Vec<u8>, Failure>
    requires { limit + 2 < 2 ^ 64 }
    ensures most { IfOk result (λ bytes. vec_len bytes ≤ limit + 1) }
    ensures read { IfOk result (λ bytes. IsReadAt (F.disk folders.old) path.items limit bytes.items) }
    ensures err { IfErr result (IsUnread (IsNoFile (F.disk folders.old) path.items)) }
    ensures disk { F.disk folders.new ≡ F.disk folders.old }
{
    match folders.read_file(alloc, path.as_slice(), limit) {
        Ok(bytes) => Ok(bytes),
        Err(error) => Err(failure_at(path, &error)),
    }
}

/// The bytes of a file in a folder.
fn read_file<F: Folders>(
    alloc: Global,
    folders: &mut F,
    folder: &str,
    name: &[u8],
    limit: usize,
) -> Result<Vec<u8>, Failure>
    requires { limit + 2 < 2 ^ 64 }
    ensures most { IfOk result (λ bytes. vec_len bytes ≤ limit + 1) }
    ensures read { IfOk result (λ bytes. IsReadAt (F.disk folders.old) (path_in folder.now name.now) limit bytes.items) }
    ensures err { IfErr result (IsUnread (IsNoFile (F.disk folders.old) (path_in folder.now name.now))) }
    ensures disk { F.disk folders.new ≡ F.disk folders.old }
{
    let path = path_in(alloc, folder, name)?;
    read_at(alloc, folders, path, limit)
}

/// The listing of a folder: its names, each ended by a NUL. One that is longer than the limit can't be read.
fn listing_at<F: Folders>(alloc: Global, folders: &mut F, folder: &str) -> io::Result<Vec<u8>>
    ensures most { IfOk result (λ listing. vec_len listing ≤ 4294967296) }
    ensures listed { IfOk result (λ listing. IsListedAt (F.disk folders.old) (folder_path folder.now) 4294967296 listing.items) }
    ensures lacks { IfErr result (λ error. (error_kind error ≡ ErrorKind.OutOfMemory)
        ⊎ LacksFolderUpTo 4294967296 (F.disk folders.old) (folder_path folder.now)) }
    ensures disk { F.disk folders.new ≡ F.disk folders.old }
{
    let path = path_in(alloc, folder, b"")?;
    let listing = folders.list_folder(alloc, path.as_slice(), LISTING_LIMIT)?;
    if listing.len() > LISTING_LIMIT {
        return Err(Error::from(ErrorKind::FileTooLarge));
    }
    Ok(listing)
}

/// The listing of a folder whose word isn't empty, or the failure that tells the word.
fn read_listing<F: Folders>(
    alloc: Global,
    folders: &mut F,
    folder: &str,
) -> Result<Vec<u8>, Failure>
    ensures most { IfOk result (λ listing. vec_len listing ≤ 4294967296) }
    ensures listed { IfOk result (λ listing. IsListedAt (F.disk folders.old) (folder_path folder.now) 4294967296 listing.items) }
    ensures err { IfErr result (IsUnread (IsNoListing (F.disk folders.old) folder.now)) }
    ensures disk { F.disk folders.new ≡ F.disk folders.old }
{
    match listing_at(alloc, folders, folder) {
        Ok(listing) => Ok(listing),
        Err(error) => {
            let told = Vec::from_slice(alloc, folder.as_bytes())?;
            Err(failure_at(told, &error))
        }
    }
}

/// The listing of the folder of a word; the empty word is that of no folder.
fn read_named<F: Folders>(alloc: Global, folders: &mut F, word: &str) -> Result<Vec<u8>, Failure>
    ensures named { IsOk result → word.now ≢ [] }
    ensures most { IfOk result (λ listing. vec_len listing ≤ 4294967296) }
    ensures listed { IfOk result (λ listing. IsListedAt (F.disk folders.old) (folder_path word.now) 4294967296 listing.items) }
    ensures err { IfErr result (IsUnread (IsNoListing (F.disk folders.old) word.now)) }
    ensures disk { F.disk folders.new ≡ F.disk folders.old }
{
    if word.is_empty() {
        return Err(Failure::Unreadable(Vec::new(alloc)));
    }
    read_listing(alloc, folders, word)
}

/// A class file of a folder.
fn read_class_file<F: Folders>(
    alloc: Global,
    folders: &mut F,
    folder: &str,
    name: &[u8],
) -> Result<NamedFile, Failure>
    ensures named { IfOk result (λ file. file_name file ≡ name.now) }
    ensures read { IfOk result (IsFileIn (F.disk folders.old) folder.now) }
    ensures err { IfErr result (IsUnread (IsNoFile (F.disk folders.old) (path_in folder.now name.now))) }
    ensures disk { F.disk folders.new ≡ F.disk folders.old }
{
    let bytes = read_file(alloc, folders, folder, name, CLASS_FILE_LIMIT)?;
    let name = Vec::from_slice(alloc, name)?;
    Ok(NamedFile { name, bytes })
}

/// The class file at a path; one byte more than the limit where there are more than that.
///
/// # Errors
///
/// `Unreadable` with the path, or `OutOfMemory` where the program had none.
pub fn read_class<F: Folders>(
    alloc: Global,
    folders: &mut F,
    path: &str,
) -> Result<Vec<u8>, Failure>
    ensures most { IfOk result (λ bytes. vec_len bytes ≤ 4194305) }
    ensures read { IfOk result (λ bytes. IsReadAt (F.disk folders.old) path.now 4194304 bytes.items) }
    ensures err { IfErr result (IsUnread (IsNoFile (F.disk folders.old) path.now)) }
    ensures disk { F.disk folders.new ≡ F.disk folders.old }
{
    let path = Vec::from_slice(alloc, path.as_bytes())?;
    read_at(alloc, folders, path, CLASS_FILE_LIMIT)
}

/// The class files of these names.
fn read_class_files<F: Folders>(
    alloc: Global,
    folders: &mut F,
    folder: &str,
    names: &[&[u8]],
) -> Result<Vec<NamedFile>, Failure>
    ensures named { IfOk result (λ files. map file_name files.items ≡ map bytes_of names.now) }
    ensures read { IfOk result (λ files. All (IsFileIn (F.disk folders.old) folder.now) files.items) }
    ensures err { IfErr result (IsUnread (IsFirstMissing (F.disk folders.old) folder.now (map bytes_of names.now))) }
    ensures disk { F.disk folders.new ≡ F.disk folders.old }
{
    let mut class_files = Vec::new(alloc);
    for name in names {
        let class_file = read_class_file(alloc, folders, folder, name)?;
        class_files.push(class_file).map_err(AllocError::from)?;
    }
    Ok(class_files)
}

/// The class files among these names, in byte order of their names.
fn read_class_files_among<F: Folders>(
    alloc: Global,
    folders: &mut F,
    folder: &str,
    names: &[&[u8]],
) -> Result<Vec<NamedFile>, Failure>
    ensures ok { IfOk result (λ files. AreClassFilesOf (F.disk folders.old) folder.now (map bytes_of names.now) files.items) }
    ensures err { IfErr result (IsUnread (IsNoClassFile (F.disk folders.old) folder.now (map bytes_of names.now))) }
    ensures disk { F.disk folders.new ≡ F.disk folders.old }
{
    let class_names = class_file_names(alloc, names)?;
    read_class_files(alloc, folders, folder, class_names.as_slice())
}

/// Reads the class files in the folder of a word, in byte order of their names. What fails first is the failure; the empty word is that of
/// no folder.
pub(crate) fn read_class_folder<F: Folders>(
    alloc: Global,
    folders: &mut F,
    word: &str,
) -> Result<Vec<NamedFile>, Failure>
    ensures ok { IfOk result (λ files. AreClassFilesIn (F.disk folders.old) word.now files.items) }
    ensures err { IfErr result (IsUnread (IsNoClassFolder (F.disk folders.old) word.now)) }
    ensures disk { F.disk folders.new ≡ F.disk folders.old }
{
    let listing = read_named(alloc, folders, word)?;
    let names = names_in(alloc, listing.as_slice())?;
    read_class_files_among(alloc, folders, word, names.as_slice())
}

/// The bytes of class files.
pub fn bytes_of_files<'a>(
    alloc: Global,
    files: &'a [NamedFile],
) -> Result<Vec<&'a [u8]>, AllocError>
    ensures { IfOk result (λ found. map bytes_of found.items ≡ map file_bytes files.now) }
{
    let mut found = Vec::new(alloc);
    for file in files {
        found.push(file.bytes.as_slice())?;
    }
    Ok(found)
}

/// The bytes of the file `main`; one that is longer than the limit can't be read.
fn read_main<F: Folders>(alloc: Global, folders: &mut F, folder: &str) -> Result<Vec<u8>, Failure>
    ensures ok { IfOk result (λ main. IsMainIn (F.disk folders.old) folder.now main.items) }
    ensures err { IfErr result (IsUnread (λ told.
        (told ≡ path_in folder.now (codes "main")) × LacksFileUpTo 4194304 (F.disk folders.old) told)) }
    ensures disk { F.disk folders.new ≡ F.disk folders.old }
{
    let main = read_file(alloc, folders, folder, b"main", CLASS_FILE_LIMIT)?;
    if main.len() > CLASS_FILE_LIMIT {
        return Err(Failure::Unreadable(path_in(alloc, folder, b"main")?));
    }
    Ok(main)
}

/// The bytes of the file `input` where it is among the names, and else none.
fn read_input<F: Folders>(
    alloc: Global,
    folders: &mut F,
    folder: &str,
    names: &[&[u8]],
) -> Result<Vec<u8>, Failure>
    ensures most { IfOk result (λ input. vec_len input ≤ 16777217) }
    ensures read { is_listed_name (codes "input") (map bytes_of names.now) ≡ true
        → IfOk result (λ input. IsReadAt (F.disk folders.old) (path_in folder.now (codes "input")) 16777216 input.items) }
    ensures absent { is_listed_name (codes "input") (map bytes_of names.now) ≡ false
        → IfOk result (λ input. input.items ≡ []) }
    ensures listed { IsErr result → is_listed_name (codes "input") (map bytes_of names.now) ≡ true }
    ensures err { IfErr result (IsUnread (IsNoFile (F.disk folders.old) (path_in folder.now (codes "input")))) }
    ensures disk { F.disk folders.new ≡ F.disk folders.old }
{
    if is_listed_name(names, b"input") {
        read_file(alloc, folders, folder, b"input", INPUT_LIMIT)
    } else {
        Ok(Vec::new(alloc))
    }
}

/// Reads what a folder whose listing has these names holds of a guest.
fn read_files<'a, F: Folders>(
    alloc: Global,
    folders: &mut F,
    word: &'a str,
    names: &[&[u8]],
) -> Result<Folder<'a>, Failure>
    ensures word { IfOk result (λ found. found.word.now ≡ word.now) }
    ensures files { IfOk result (IsFolderOf (F.disk folders.old) word.now (map bytes_of names.now)) }
    ensures err { IfErr result (IsUnread (IsNoFileOf (F.disk folders.old) word.now (map bytes_of names.now))) }
    ensures disk { F.disk folders.new ≡ F.disk folders.old }
{
    let class_files = read_class_files_among(alloc, folders, word, names)?;
    let main = read_main(alloc, folders, word)?;
    let input = read_input(alloc, folders, word, names)?;
    Ok(Folder {
        word,
        class_files,
        main,
        input,
    })
}

/// Reads the folder of a word: its listing, its class files in byte order of their names, its file `main`, and its file
/// `input` where there is one. What fails first is the failure; the empty word is that of no folder.
pub fn read_folder<'a, F: Folders>(
    alloc: Global,
    folders: &mut F,
    word: &'a str,
) -> Result<Folder<'a>, Failure>
    ensures ok { IfOk result (IsFolderRead (F.disk folders.old) word.now) }
    ensures err { IfErr result (IsUnread (IsNoFolder (F.disk folders.old) word.now)) }
    ensures disk { F.disk folders.new ≡ F.disk folders.old }
{
    let listing = read_named(alloc, folders, word)?;
    let names = names_in(alloc, listing.as_slice())?;
    read_files(alloc, folders, word, names.as_slice())
}
