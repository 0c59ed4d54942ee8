//! Names for the trials of tables of texts.
use std::alloc::{AllocError, Global};
use std::hash::{FoldHasher, Hasher};

pub type Name = [u8; 8];

/// The 64 letters of names are the bytes from this one.
const FIRST: u8 = b'0';

/// The name of a number, its least digit of 64 first.
pub fn spelled(number: u64) -> Name {
    let mut name = [0; 8];
    let mut rest = number;
    for letter in name.iter_mut() {
        *letter = FIRST + (rest % 64) as u8;
        rest /= 64;
    }
    name
}

/// The names of the numbers from 0.
pub fn plain_names(alloc: Global, count: u64) -> Result<Vec<Name>, AllocError> {
    let mut names = Vec::new(alloc);
    for number in 0..count {
        names.push(spelled(number))?;
    }
    Ok(names)
}

/// Names whose hashes by std's hasher of maps, which has no key, agree in their last bits, so that a table which hashes
/// with it keeps them all in few places.
pub fn colliding_names(alloc: Global, count: usize) -> Result<Vec<Name>, AllocError> {
    let mut names = Vec::new(alloc);
    for prefix in 0..u32::MAX {
        if count <= names.len() {
            break;
        }
        add_with_prefix(&mut names, spelled(u64::from(prefix)))?;
    }
    names.truncate(count);
    Ok(names)
}

fn add_with_prefix(names: &mut Vec<Name>, mut name: Name) -> Result<(), AllocError> {
    let begun = begun(name);
    for letter in FIRST..FIRST + 64 {
        name[5] = letter;
        add_with_six(names, name, fed(begun, letter))?;
    }
    Ok(())
}

fn add_with_six(
    names: &mut Vec<Name>,
    mut name: Name,
    begun: FoldHasher,
) -> Result<(), AllocError> {
    for letter in FIRST..FIRST + 64 {
        name[6] = letter;
        add_with_seven(names, name, fed(begun, letter))?;
    }
    Ok(())
}

fn add_with_seven(
    names: &mut Vec<Name>,
    mut name: Name,
    begun: FoldHasher,
) -> Result<(), AllocError> {
    for letter in FIRST..FIRST + 64 {
        name[7] = letter;
        let hash = fed(begun, letter).finish();
        if (hash ^ hash >> 32) % 4_096 == 7 {
            names.push(name)?;
        }
    }
    Ok(())
}

/// The hasher of a text of eight bytes behind the first five.
fn begun(name: Name) -> FoldHasher {
    let mut hasher = FoldHasher::default();
    hasher.write_usize(8);
    for letter in &name[..5] {
        hasher.write_u8(*letter);
    }
    hasher
}

fn fed(mut hasher: FoldHasher, letter: u8) -> FoldHasher {
    hasher.write_u8(letter);
    hasher
}
