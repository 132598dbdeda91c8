//! What no clause says: that words in memory are read and replayed where they can be.

ghost use Rattle.std.specs.Prelude.{[], ◌∷◌};
ghost use Rattle.vectors.specs.Reading.{buffer_in};

use crate::{
    Counts, Flaw, ReplayError, Vector, buffer_agrees, read_word, read_words, replay_vectors,
};
use std::alloc::Global;
use std::test::Fail;

// A vector is what a buffer with the words 7, 7 and 0 should hold.
#[derive(Clone, Copy)]
struct Sevens;

impl Vector for Sevens {
    ghost agreement = { buffer_in (7 ∷ 7 ∷ 0 ∷ []) };

    fn replay(alloc: Global, words: &[u64]) -> Result<(bool, &[u64]), ReplayError> {
        Ok(buffer_agrees(&[7, 7, 0], words)?)
    }
}

#[test]
fn words_come_with_those_behind(rt: HostRuntime) {
    assert_eq!(rt; read_word(&[3, 4]), Ok((3, [4].as_slice())));
    assert_eq!(rt; read_word(&[]), Err(Flaw::CutShort));
    let two = [3, 4];
    assert_eq!(rt;
        read_words(&[3, 4, 5], 2),
        Ok((two.as_slice(), [5].as_slice()))
    );
    assert_eq!(rt; read_words(&two, 3), Err(Flaw::CutShort));
}

#[test]
fn a_buffer_is_compared(rt: HostRuntime) {
    let buffer = [7, 7, 0];
    let behind = [1];
    let rest = behind.as_slice();
    assert_eq!(rt; buffer_agrees(&buffer, &[2, 7, 7, 1]), Ok((true, rest)));
    assert_eq!(rt; buffer_agrees(&buffer, &[2, 7, 6, 1]), Ok((false, rest)));
    assert_eq!(rt; buffer_agrees(&buffer, &[65536, 7, 7]), Err(Flaw::CutShort));
    assert_eq!(rt; buffer_agrees(&buffer, &[65537, 7, 7]), Err(Flaw::TooLong));
}

// How many vectors of a list agree and differ.
fn counted(rt: &impl Print, alloc: Global, words: &[u64]) -> Result<Counts, Fail> {
    let mut bytes = Vec::new(alloc);
    for word in words {
        bytes.extend_from_slice(&word.to_le_bytes())?;
    }
    let mut input = bytes.as_slice();
    Ok(replay_vectors::<Sevens, _>(rt, alloc, &mut input)?)
}

#[test]
fn a_vector_is_replayed(rt: HostRuntime) -> Result<(), Fail> {
    let words = [2, 7, 7, 1];
    let (agrees, behind) = Sevens::replay(rt.alloc(), &words)?;
    assert_eq!(rt; (agrees, behind), (true, &words[3..]));
    Ok(())
}

#[test]
fn vectors_are_counted(rt: HostRuntime) -> Result<(), Fail> {
    let list = [3, 2, 7, 7, 1, 7, 2, 7, 7];
    let (whole, cut, none) = (list.as_slice(), &list[..6], &list[..0]);
    for (words, agree, differ) in [(whole, 2, 1), (cut, 1, 1), (none, 0, 0)] {
        let counts = counted(&rt, rt.alloc(), words)?;
        assert_eq!(rt; counts, Counts { agree, differ });
    }
    Ok(())
}
