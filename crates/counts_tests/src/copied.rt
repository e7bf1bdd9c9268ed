//! Turns that three copiers take, all from one thread. The expected values are those of two turns.

ghost use Rattle.std.specs.Prelude.{◌≡◌, ◌<◌, None, IsSome, IfSome, All};
ghost use Rattle.copy_turns.specs.declared.turn.TheConstants.{PROCESS_LIMIT};
ghost use Rattle.copy_turns.specs.Copiers.{AreAllCopiers, AreNew};

use copy_turns::{Copier, CopierList, CopyTurns, Taken};
use std::alloc::Global;
use std::test::Fail;
use term_core::{NoMemory, WordList};

/// Three copiers of one table.
#[derive(Drop)]
struct Three {
    first: Copier,
    second: Copier,
    third: Copier,
}

/// The last of some copiers that hold nothing.
fn last_copier(turns: &CopyTurns, copiers: &mut CopierList) -> Option<Copier>
    requires theirs { All (λ copier. copier.table ≡ turns.now.table) copiers.old }
    requires idle { AreNew copiers.old }
    ensures theirs { All (λ copier. copier.table ≡ turns.now.table) copiers.new }
    ensures idle { AreNew copiers.new }
    ensures table { IfSome result (λ copier. copier.table ≡ turns.now.table) }
    ensures held { IfSome result (λ copier. copier.held ≡ None) }
{
    copiers.pop()
}

/// The three copiers of turns.
fn three_copiers(turns: &CopyTurns, mut copiers: CopierList) -> Option<Three>
    requires copiers { AreAllCopiers turns.now copiers }
    requires idle { AreNew copiers }
    ensures first { IfSome result (λ three. three.first.table ≡ turns.now.table) }
    ensures first_idle { IfSome result (λ three. three.first.held ≡ None) }
    ensures second { IfSome result (λ three. three.second.table ≡ turns.now.table) }
    ensures second_idle { IfSome result (λ three. three.second.held ≡ None) }
    ensures third { IfSome result (λ three. three.third.table ≡ turns.now.table) }
    ensures third_idle { IfSome result (λ three. three.third.held ≡ None) }
{
    let third = last_copier(turns, &mut copiers)?;
    let second = last_copier(turns, &mut copiers)?;
    let first = last_copier(turns, &mut copiers)?;
    Some(Three {
        first,
        second,
        third,
    })
}

/// The copier with a turn for the process, where one was free.
#[tactic(auto, using(crate::proofs::Tokens::one_is_held, crate::proofs::Tokens::same_turns))]
fn holding(turns: &CopyTurns, mut copier: Copier, process: u32) -> Option<Copier>
    requires table { copier.table ≡ turns.now.table }
    requires idle { copier.held ≡ None }
    requires process { process < PROCESS_LIMIT }
    ensures table { IfSome result (λ copier. copier.table ≡ turns.now.table) }
    ensures held { IfSome result (λ copier. IsSome copier.held) }
{
    match turns.take(&mut copier, process) {
        Taken::Held => Some(copier),
        Taken::Busy {
            first: _,
            second: _,
        } => None,
    }
}

/// Ends turns that have three copiers.
fn close_three(alloc: Global, turns: CopyTurns, three: Three) -> Result<WordList, NoMemory>
    requires many { turns.copiers ≡ 3 }
    requires first { three.first.table ≡ turns.table }
    requires second { three.second.table ≡ turns.table }
    requires third { three.third.table ≡ turns.table }
{
    let Three {
        first,
        second,
        third,
    } = three;
    let mut copiers = CopierList::new(alloc);
    copiers.push(first)?;
    copiers.push(second)?;
    copiers.push(third)?;
    turns.close(alloc, copiers)
}

/// Two of three copiers have a turn, and the third one has one once the first gave its turn back.
#[test]
fn a_third_copier_waits_for_a_turn(rt: HostRuntime) -> Result<(), Fail> {
    let (turns, copiers) = CopyTurns::new(rt.alloc(), 3)?;
    let Some(three) = three_copiers(&turns, copiers) else {
        assert!(rt; false, "there are three copiers");
        return Ok(());
    };
    let Three {
        first,
        second,
        mut third,
    } = three;
    let Some(mut first) = holding(&turns, first, 0) else {
        assert!(rt; false, "the first turn is free");
        return Ok(());
    };
    let Some(mut second) = holding(&turns, second, 1) else {
        assert!(rt; false, "the second turn is free");
        return Ok(());
    };
    let taken = turns.take(&mut third, 2);
    assert_eq!(rt;
        taken,
        Taken::Busy {
            first: 0,
            second: 1
        }
    );
    let Taken::Busy {
        first: _,
        second: _,
    } = taken
    else {
        return Ok(());
    };
    turns.give(&mut first);
    let Some(mut third) = holding(&turns, third, 2) else {
        assert!(rt; false, "the first turn is free again");
        return Ok(());
    };
    turns.give(&mut second);
    turns.give(&mut third);
    let three = Three {
        first,
        second,
        third,
    };
    let words = close_three(rt.alloc(), turns, three)?;
    assert_eq!(rt; words.as_slice(), [0u64, 0].as_slice());
    Ok(())
}

/// A turn that is still held at the end has the number of its process plus 1 as its word.
#[test]
fn a_held_turn_is_told_at_the_end(rt: HostRuntime) -> Result<(), Fail> {
    let (turns, copiers) = CopyTurns::new(rt.alloc(), 3)?;
    let Some(three) = three_copiers(&turns, copiers) else {
        assert!(rt; false, "there are three copiers");
        return Ok(());
    };
    let Three {
        first,
        second,
        third,
    } = three;
    let Some(second) = holding(&turns, second, 5) else {
        assert!(rt; false, "the first turn is free");
        return Ok(());
    };
    let three = Three {
        first,
        second,
        third,
    };
    let words = close_three(rt.alloc(), turns, three)?;
    assert_eq!(rt; words.as_slice(), [6u64, 0].as_slice());
    Ok(())
}
