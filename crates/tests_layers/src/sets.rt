//! Sets of ranks, at the edges of their words.

use crate::stop::Stop;
use crate::words::say;
use rank_set::RankSet;
use std::alloc::Global;

/// Puts the ranks behind `+` into a set, and takes those behind `-` out of it.
fn change(set: &mut RankSet, words: &str) {
    let mut is_put = true;
    for word in words.split(" ") {
        match word.parse::<usize>() {
            Ok(rank) if rank < set.size() => {
                if is_put {
                    set.insert(rank)
                } else {
                    set.remove(rank)
                }
            }
            _ => is_put = word != "-",
        }
    }
}

/// What each call says of a set.
fn shown(alloc: Global, set: &RankSet) -> Result<Vec<u8>, Stop> {
    let (size, count, is_empty) = (set.size(), set.count(), set.is_empty());
    let (least, greatest) = (set.least(), set.greatest());
    let beyond = set.contains(usize::MAX);
    let mut out = format!(in alloc;
        "size {size} count {count} is_empty {is_empty} least {least:?} greatest {greatest:?} beyond {beyond} members"
    )?.into_bytes();
    for n in 0..count {
        let rank = set.nth(n);
        let is_member = set.contains(rank);
        say(&mut out, &format!(in alloc; "{rank} {is_member}")?)?;
    }
    Ok(out)
}

/// What each call says of the set that a text describes.
pub fn told(alloc: Global, text: &[u8]) -> Result<Vec<u8>, Stop> {
    let Ok(text) = str::from_utf8(text) else {
        return Err(Stop::Unread);
    };
    let Some((size, words)) = text.split_once(" ") else {
        return Err(Stop::Unread);
    };
    let Ok(size) = size.parse::<usize>() else {
        return Err(Stop::Unread);
    };
    let mut set = RankSet::new(alloc, size)?;
    change(&mut set, words);
    shown(alloc, &set)
}
