// Files in memory.
ghost use Rattle.std.specs.Prelude.{◌≡◌, ◌↔◌, IsTrue, ◌+◌, ◌-◌, ◌==◌, ◌<◌, [], is_some, not, ◌≤◌, ℕ, IfOk, IfSome, All, option_map, length, take, min, vec_len, vec_capacity, map, reverse};
ghost use Rattle.std.specs.FinMap.{get};
ghost use Rattle.vvp_edge.specs.MemoryStore.{entry_of, files_in, kept_with, IsSpare};

use std::alloc::{AllocError, Global};

/// A file by its name.
#[derive(Drop)]
pub(crate) struct NamedFile {
    pub(crate) name: Vec<u8>,
    pub(crate) bytes: Vec<u8>,
}

/// The two names are one, byte by byte.
pub(crate) fn same_name(a: &[u8], b: &[u8]) -> bool
    ensures { IsTrue result ↔ (a.now ≡ b.now) }
{
    a == b
}

/// The newest file of this name.
pub(crate) fn find_file<'a>(files: &'a [NamedFile], name: &[u8]) -> Option<&'a NamedFile>
    ensures found { option_map (λ f. f.now.bytes.items) result ≡ get
        (files_in (reverse (map entry_of files.now))) name.now }
    ensures bounded { (most room : ℕ) → All (λ f. vec_len f.bytes + room ≤ most) files.now
        → IfSome result (λ f. vec_len f.now.bytes + room ≤ most) }
{
    let mut left = files.len();
    while left > 0 {
        left -= 1;
        let file = &files[left];
        if same_name(&file.name, name) {
            return Some(file);
        }
    }
    None
}

/// An empty file, with room for so many bytes in its name and in itself.
fn spare_file(alloc: Global, room: usize) -> Result<NamedFile, AllocError>
    ensures { IfOk result (IsSpare room) }
{
    Ok(NamedFile {
        name: Vec::with_capacity(alloc, room)?,
        bytes: Vec::with_capacity(alloc, room)?,
    })
}

/// So many empty files.
pub(crate) fn spare_files(
    alloc: Global,
    count: usize,
    room: usize,
) -> Result<Vec<NamedFile>, AllocError>
    ensures count { IfOk result (λ files. vec_len files ≡ count) }
    ensures spare { IfOk result (λ files. All (IsSpare room) files.items) }
{
    let mut files = Vec::new(alloc);
    while files.len() < count {
        files.push(spare_file(alloc, room)?)?;
    }
    Ok(files)
}

/// The next empty file, under this name.
pub(crate) fn next_file(spare: &mut Vec<NamedFile>, name: &[u8], room: usize) -> Option<NamedFile>
    requires spare { All (IsSpare room) spare.old.items }
    requires fits { length name.now ≤ room }
    ensures some { is_some result ≡ not (vec_len spare.old == 0) }
    ensures left { IfSome result (λ _. 0 < vec_len spare.old) }
    ensures entry { IfSome result (λ f. entry_of f ≡ (name.now, [])) }
    ensures room { IfSome result (λ f. (vec_len f.bytes ≡ 0) × (room ≤ vec_capacity f.bytes)) }
    ensures count { vec_len spare.new ≡ vec_len spare.old - 1 }
    ensures rest { (less : ℕ) → less ≤ room → All (IsSpare less) spare.new.items }
{
    match spare.pop() {
        None => None,
        Some(mut file) => {
            let _named = file.name.extend_from_slice(name);
            Some(file)
        }
    }
}

/// Keeps the file that was written until now, if there is one.
pub(crate) fn keep(kept: &mut Vec<NamedFile>, done: Option<NamedFile>)
    requires { vec_len kept.old < vec_capacity kept.old }
    ensures files { map entry_of kept.new.items ≡ kept_with (map entry_of kept.old.items)
        (option_map entry_of done) }
    ensures capacity { vec_capacity kept.new ≡ vec_capacity kept.old }
    ensures count { vec_len kept.new ≤ vec_len kept.old + 1 }
    ensures fits { (less most room : ℕ) → less ≤ most
        → All (λ f. vec_len f.bytes + room ≤ less) kept.old.items
        → IfSome done (λ f. vec_len f.bytes + room ≤ most)
        → All (λ f. vec_len f.bytes + room ≤ most) kept.new.items }
{
    match done {
        None => {}
        Some(file) => kept.push_reserved(file),
    }
}

/// Puts these bytes in the place of what a buffer has. There is room for them.
pub(crate) fn refill(buffer: &mut Vec<u8>, bytes: &[u8])
    requires { length bytes.now ≤ vec_capacity buffer.old }
    ensures items { buffer.new.items ≡ bytes.now }
    ensures capacity { vec_capacity buffer.old ≤ vec_capacity buffer.new }
{
    buffer.clear();
    let _kept = buffer.extend_from_slice(bytes);
}

/// Copies what there is place for, and answers how much.
pub(crate) fn copy_front(room: &mut [u8], bytes: &[u8]) -> usize
    ensures count { result ≡ min (length room.old) (length bytes.now) }
    ensures front { take result room.new ≡ take result bytes.now }
{
    let count = room.len().min(bytes.len());
    room[..count].copy_from_slice(&bytes[..count]);
    count
}
