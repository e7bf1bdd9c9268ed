//! The look-up of what a key holds.

ghost use Rattle.std.specs.Prelude.{◌≡◌, ◌↔◌, ◌<◌, ◌/◌, ◌%◌};
ghost use Rattle.term_core.specs.declared.area.Found.TheVariants as founds;
ghost use Rattle.area_core.specs.declared.map.TheConstants.{BIG_WORDS};
ghost use Rattle.shared_words.specs.Seats.{IsRooted};
ghost use Rattle.progress_words.specs.Tokens.{view_of, IsMemberOf, IsSameMember};
ghost use Rattle.progress_words.specs.Reports.{IsAwake};
ghost use Rattle.term_table.specs.Keys.{IsHeld, Lacks, HasPlainWords};
ghost use Rattle.term_table.specs.Looked.{found_of, MayReadTable, HasReadWord, HasRead};
ghost use Rattle.shared_words.specs.Processes.{held_by_view};

use crate::places::{BUCKETS, term_word};
use shared_words::{Member, Served, Shared};
use term_core::{AreaRef, AtomId, Found};

/// The term table that a root word names.
fn table_of(root: u64) -> u32
    ensures { result ≡ root / 8 % 4 }
{
    (root / 8 % 4) as u32
}

/// What a word that stands under a key is for.
fn found_word(word: u64) -> Found
    ensures { result ≡ found_of word }
{
    if word % 16 == 5 {
        Found::Area(AreaRef {
            serial: word / 8192,
            block: (word / 16 % 512) as u32,
        })
    } else {
        Found::Word(word)
    }
}

/// A word of the table of the generation that the member holds.
fn read_at<N: Served>(shared: &Shared<N>, member: &mut Member, table: u32, at: u32) -> u64
    requires token { IsMemberOf shared.now.table.shared.table_id member.old }
    requires may { MayReadTable table (view_of member.old) }
    requires at { at < BIG_WORDS }
    ensures token { IsMemberOf shared.now.table.shared.table_id member.new }
    ensures same { IsSameMember member.old member.new }
    ensures root { member.new.root ≡ member.old.root }
    ensures read { HasReadWord table at result (view_of member.old) (view_of member.new) }
{
    shared.load_word(member, term_word(table, at))
}

/// What a key holds in the generation that the member holds. The member is awake. It takes no memory
/// and no lock.
///
/// Source: Erlang/OTP, the manual page of persistent_term.
pub fn lookup<N: Served>(shared: &Shared<N>, member: &mut Member, key: AtomId) -> Found
    requires token { IsMemberOf shared.now.table.shared.table_id member.old }
    requires awake { IsAwake (view_of member.old) }
    requires rooted { IsRooted member.old.root (view_of member.old) }
    ensures token { IsMemberOf shared.now.table.shared.table_id member.new }
    ensures same { IsSameMember member.old member.new }
    ensures root { member.new.root ≡ member.old.root }
    ensures read { HasRead (view_of member.old) (view_of member.new) }
    ensures held { HasPlainWords (held_by_view (view_of member.old)) → IsHeld (held_by_view (view_of member.old)) key.0 result }
    ensures absent { (result ≡ founds.Absent) ↔ Lacks (held_by_view (view_of member.old)) key.0 }
{
    let table = table_of(member.root());
    for tried in 0..BUCKETS {
        let bucket = (key.0 % BUCKETS + tried) % BUCKETS;
        let held = read_at(shared, member, table, bucket * 2);
        if held == 0 {
            return Found::Absent;
        }
        if held == u64::from(key.0) + 1 {
            return found_word(read_at(shared, member, table, bucket * 2 + 1));
        }
    }
    Found::Absent
}
