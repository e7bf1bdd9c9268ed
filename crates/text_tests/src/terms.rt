ghost use Rattle.std.specs.Prelude.{◌≤◌, ◌<◌, length};
ghost use Rattle.term_core.specs.Image.{IsImmediate};

use std::process::Abort;
use term_core::*;

// An atom of as many bytes, for the limit of 32.
const AT_LIMIT: &str = "a2345678901234567890123456789012";

const PAST_LIMIT: &str = "a23456789012345678901234567890123";

fn number_of(rt: &(impl AllocGlobal + Abort), names: &mut Names, text: &[u8]) -> u32 {
    assert!(rt; is_atom_text(text));
    names.add(text).expect(rt, "a name with a number").0
}

// Whether the name has the number, and the number the name.
fn is_numbered(rt: &(impl AllocGlobal + Abort), names: &mut Names, text: &str, number: u32) {
    assert!(rt;
        number_of(rt, names, text.as_bytes()) == number,
        "at {text}"
    );
    assert!(rt;
        names.get(text.as_bytes()) == Some(AtomId(number)),
        "at {text}"
    );
    assert!(rt;
        names.text(AtomId(number)) == Some(text.as_bytes()),
        "at {text}"
    );
}

fn lacks_others(rt: &impl Abort, names: &Names) {
    assert!(rt; names.get(b"other").is_none());
    assert!(rt; names.get(b"m 1").is_none());
    assert!(rt; names.text(AtomId(7)).is_none());
}

#[test]
fn names_have_their_numbers_in_order(rt: HostRuntime) {
    let mut names = Names::new(rt.alloc()).expect(&rt, "the given names");
    let cases = [
        ("ok", 2),
        ("m", 3),
        ("true", 0),
        ("main", 4),
        ("m", 3),
        ("a_B9", 5),
        ("false", 1),
        (AT_LIMIT, 6),
    ];
    for (text, number) in cases {
        is_numbered(&rt, &mut names, text, number);
    }
    lacks_others(&rt, &names);
}

#[test]
fn other_texts_are_no_atoms(rt: HostRuntime) {
    for text in ["", "A", "1", "_a", "a-b", "a B", PAST_LIMIT] {
        assert!(rt; !is_atom_text(text.as_bytes()), "at {text}");
    }
}

fn add_numbered(rt: &(impl AllocGlobal + Abort), names: &mut Names, number: u64) {
    let mut text = ByteList::new(rt.alloc());
    text.push(b'n').expect(rt, "a byte");
    print_number(number, &mut text).expect(rt, "a number");
    assert!(rt; number_of(rt, names, text.as_slice()) as u64 == number);
}

fn is_full(rt: &impl Abort, names: &mut Names) {
    assert!(rt; is_atom_text(b"more"));
    assert!(rt; names.add(b"more") == Err(NameFault::Full));
    assert!(rt; read_term(names, b"more") == Err(TermFault::Names));
    assert!(rt; read_term(names, b"{n3,more}") == Err(TermFault::Names));
    assert!(rt; read_term(names, b"n3") == Ok(Term::Atom(AtomId(3))));
    assert!(rt; read_term(names, b"3") == Ok(Term::Int(3)));
}

#[test]
fn a_full_table_takes_no_new_name(rt: HostRuntime) {
    let mut names = Names::new(rt.alloc()).expect(&rt, "the given names");
    for number in 3..4096u64 {
        add_numbered(&rt, &mut names, number);
    }
    is_full(&rt, &mut names);
}

// Whether the term has this text, and equals its copy and its clone.
fn is_written(rt: &(impl AllocGlobal + Abort), names: &Names, term: &Term, text: &[u8]) {
    let mut out = ByteList::new(rt.alloc());
    print_term(names, term, &mut out).expect(rt, "a text");
    assert!(rt; out.as_slice() == text);
    assert!(rt; term.copy(rt.alloc()).expect(rt, "a copy") == *term);
    assert!(rt; term.clone().expect(rt, "a clone") == *term);
}

fn reads_back(rt: &(impl AllocGlobal + Abort), names: &mut Names, text: &[u8], words: u64) {
    let term = read_term(names, text).expect(rt, "a term");
    assert_eq!(rt; image_len(&term), words);
    is_written(rt, names, &term, text);
}

fn reads_as(rt: &(impl AllocGlobal + Abort), names: &mut Names, text: &str, wanted: &Term) {
    assert!(rt;
        read_term(names, text.as_bytes()).expect(rt, "a term") == *wanted,
        "at {text}"
    );
    reads_back(rt, names, text.as_bytes(), 1);
}

#[test]
fn integers_and_atoms_are_read(rt: HostRuntime) {
    let integers = [
        ("0", 0),
        ("-1", -1),
        ("576460752303423487", 576460752303423487),
        ("-576460752303423488", -576460752303423488),
    ];
    let mut names = Names::new(rt.alloc()).expect(&rt, "the given names");
    for (text, integer) in integers {
        reads_as(&rt, &mut names, text, &Term::Int(integer));
    }
    for (text, number) in [("ok", 2), (AT_LIMIT, 3), ("m", 4)] {
        reads_as(&rt, &mut names, text, &Term::Atom(AtomId(number)));
    }
}

#[test]
fn tuples_and_lists_are_read(rt: HostRuntime) {
    let cases = [
        ("{}", 1),
        ("[]", 1),
        ("{ok,[1,-1]}", 5),
        ("[[],{},[{a_B9}]]", 6),
        ("{1,{2,{3,{4,5}}}}", 9),
    ];
    let mut names = Names::new(rt.alloc()).expect(&rt, "the given names");
    for (text, words) in cases {
        reads_back(&rt, &mut names, text.as_bytes(), words);
    }
}

fn pair(rt: &(impl AllocGlobal + Abort)) -> TermList {
    let mut pair = TermList::new(rt.alloc());
    pair.push(Term::Int(7)).expect(rt, "a term");
    pair.push(Term::Atom(AtomId::OK)).expect(rt, "a term");
    assert_eq!(rt; pair.len(), 2);
    assert!(rt; pair.get(1).is_some());
    pair
}

#[test]
fn a_read_term_equals_one_that_is_made(rt: HostRuntime) {
    let mut names = Names::new(rt.alloc()).expect(&rt, "the given names");
    let empty = Term::List(TermList::new(rt.alloc()));
    assert!(rt; read_term(&mut names, b"[]").expect(&rt, "a list") == empty);
    let pair = Term::Tuple(pair(&rt));
    assert!(rt; read_term(&mut names, b"{7,ok}").expect(&rt, "a tuple") == pair);
    assert!(rt; empty != pair);
}

// A list of as many ones.
fn list_of_ones(rt: &(impl AllocGlobal + Abort), count: u64) -> ByteList {
    let mut text = ByteList::new(rt.alloc());
    text.push(b'[').expect(rt, "a byte");
    for at in 0..count {
        if at > 0 {
            text.push(b',').expect(rt, "a byte");
        }
        text.push(b'1').expect(rt, "a byte");
    }
    text.push(b']').expect(rt, "a byte");
    text
}

// What becomes of the text of a list of as many ones: how many words its image has, or none where the term is too long.
fn words_of_ones(rt: &(impl AllocGlobal + Abort), names: &mut Names, count: u64) -> Option<u64> {
    match read_term(names, list_of_ones(rt, count).as_slice()) {
        Ok(term) => Some(image_len(&term)),
        Err(fault) => {
            assert!(rt; fault == TermFault::TooLong);
            None
        }
    }
}

#[test]
fn a_term_has_64_words_at_most(rt: HostRuntime) {
    let mut names = Names::new(rt.alloc()).expect(&rt, "the given names");
    assert!(rt; words_of_ones(&rt, &mut names, 63) == Some(64));
    assert!(rt; words_of_ones(&rt, &mut names, 64) == None);
}

fn refuses(rt: &(impl AllocGlobal + Abort), text: &str, fault: TermFault) {
    let mut names = Names::new(rt.alloc()).expect(rt, "the given names");
    assert!(rt;
        read_term(&mut names, text.as_bytes()) == Err(fault),
        "at {text}"
    );
}

#[test]
fn integers_out_of_range_have_their_place(rt: HostRuntime) {
    let cases = [
        ("576460752303423488", 0),
        ("-576460752303423489", 0),
        ("{1,576460752303423488}", 3),
        ("[{},-9999999999999999999999,1152921504606846976]", 4),
    ];
    for (text, at) in cases {
        refuses(&rt, text, TermFault::IntRange { at });
    }
}

#[test]
fn other_texts_have_their_place(rt: HostRuntime) {
    let cases = [
        ("", 0),
        ("{1,", 3),
        ("01", 1),
        ("-0", 1),
        ("{,}", 1),
        ("{1}}", 3),
        ("[1}", 2),
        ("{1,2}x", 5),
    ];
    for (text, at) in cases {
        refuses(&rt, text, TermFault::Syntax { at });
    }
}

#[test]
fn other_bytes_have_their_place(rt: HostRuntime) {
    let cases = [
        ("a B", 1),
        ("Ok", 0),
        ("1a", 1),
        ("{[],_}", 4),
        (PAST_LIMIT, 32),
    ];
    for (text, at) in cases {
        refuses(&rt, text, TermFault::Syntax { at });
    }
}

fn opened(rt: &(impl AllocGlobal + Abort), count: usize) -> ByteList {
    let mut text = ByteList::new(rt.alloc());
    for _ in 0..count {
        text.push(b'[').expect(rt, "a byte");
    }
    text
}

#[test]
fn a_million_brackets_are_refused(rt: HostRuntime) {
    let mut names = Names::new(rt.alloc()).expect(&rt, "the given names");
    let text = opened(&rt, 1048576);
    let at = text.len();
    assert!(rt; read_term(&mut names, text.as_slice()) == Err(TermFault::Syntax { at }));
    assert_eq!(rt; at, 1048576);
}

fn shows(rt: &(impl AllocGlobal + Abort), term: &Term, word: u64)
    requires immediate { IsImmediate term.now }
{
    assert_eq!(rt; term.word(), word);
    assert!(rt; Term::of_word(word) == *term);
}

#[test]
fn terms_of_one_word_have_it(rt: HostRuntime) {
    shows(&rt, &Term::Int(1), 17);
    shows(&rt, &Term::Int(2), 33);
    shows(&rt, &Term::Int(-1), 18446744073709551601);
    shows(&rt, &Term::Atom(AtomId::OK), 34);
}

fn has_image(rt: &(impl AllocGlobal + Abort), text: &[u8], words: &[u64]) {
    let mut names = Names::new(rt.alloc()).expect(rt, "the given names");
    let term = read_term(&mut names, text).expect(rt, "a term");
    let shown = image(rt.alloc(), &term).expect(rt, "an image");
    assert!(rt; shown.as_slice() == words);
    let read = read_image(rt.alloc(), words, 0).expect(rt, "the term");
    assert!(rt; read == term);
}

#[test]
fn terms_have_their_images(rt: HostRuntime) {
    has_image(&rt, b"{}", &[3]);
    has_image(&rt, b"[]", &[4]);
    has_image(&rt, b"{ok,[1,-1]}", &[35, 34, 36, 17, 18446744073709551601]);
    has_image(&rt, b"-576460752303423488", &[9223372036854775809]);
    has_image(&rt, b"576460752303423487", &[9223372036854775793]);
}

fn is_bad(rt: &(impl AllocGlobal + Abort), words: &[u64], at: usize) -> bool
    requires { at ≤ length words.now }
{
    read_image(rt.alloc(), words, at) == Err(ImageFault::Bad)
}

#[test]
fn other_words_are_bad(rt: HostRuntime) {
    assert!(rt; is_bad(&rt, &[35, 34], 0));
    assert!(rt; is_bad(&rt, &[17], 1));
    assert!(rt; is_bad(&rt, &[5], 0));
    assert!(rt; is_bad(&rt, &[68719476738], 0));
    assert!(rt; is_bad(&rt, &[18446744073709551603, 17], 0));
    let last = read_image(rt.alloc(), &[35, 34, 36, 17], 3).expect(&rt, "a term");
    assert!(rt; last == Term::Int(1));
    assert_eq!(rt; parts_of_word(35), 2);
    assert_eq!(rt; parts_of_word(34), 0);
    assert!(rt; last.is_immediate());
}

// The image of a list of as many ones.
fn image_of_ones(rt: &(impl AllocGlobal + Abort), count: u64) -> WordList
    requires { count < 100 }
{
    let mut words = WordList::new(rt.alloc());
    words.push(count * 16 + 4).expect(rt, "a word");
    for _ in 0..count {
        words.push(17).expect(rt, "a word");
    }
    words
}

#[test]
fn an_image_has_64_words_at_most(rt: HostRuntime) {
    let most = image_of_ones(&rt, 63);
    let list = read_image(rt.alloc(), most.as_slice(), 0).expect(&rt, "a list");
    assert!(rt; !list.is_immediate());
    let more = image_of_ones(&rt, 64);
    assert!(rt; is_bad(&rt, more.as_slice(), 0));
}

fn stays_as_read(rt: &(impl AllocGlobal + Abort), names: &mut Names, text: &[u8]) {
    name_atoms(names, text).expect(rt, "names");
    assert!(rt; is_term_text(rt.alloc(), text).expect(rt, "an answer"));
    assert!(rt; !is_wide_text(text));
    let term = term_in(rt.alloc(), names, text).expect(rt, "a term");
    assert!(rt; read_term(names, text).expect(rt, "a term") == term);
}

#[test]
fn a_text_is_read_by_names_that_stay(rt: HostRuntime) {
    let mut names = Names::new(rt.alloc()).expect(&rt, "the given names");
    stays_as_read(&rt, &mut names, b"{ok,[m,-1]}");
}

#[test]
fn texts_of_terms_are_told_from_others(rt: HostRuntime) {
    assert_eq!(rt; text_words(b"{ok,[m,-1]}"), 5);
    assert!(rt; !is_term_text(rt.alloc(), b"{1").expect(&rt, "an answer"));
    assert!(rt; is_wide_text(b"[576460752303423488]"));
}

fn is_cut(rt: &impl Abort, text: &str, front: &str, rest: Option<&str>) {
    let (before, behind) = cut_term(text.as_bytes());
    assert!(rt; before == front.as_bytes(), "at {text}");
    assert!(rt; behind == rest.map(|rest| rest.as_bytes()), "at {text}");
}

#[test]
fn arguments_are_cut_at_commas_outside_of_brackets(rt: HostRuntime) {
    is_cut(&rt, "{1,2},a,[3]", "{1,2}", Some("a,[3]"));
    is_cut(&rt, "[1,{2,3}]", "[1,{2,3}]", None);
    is_cut(&rt, "", "", None);
}
