use mod_core::*;
use mod_text::read_module;
use std::alloc::Global;
use std::test::Fail;
use term_core::{ImageFault, Names, NoMemory, WordList};

// The names of each text are numbered as they appear, from 3 on.
const FIRST_TEXT: &str = "module m.1
export main/0
add 1 2 $0
print $0
end
";

// Each instruction of integers and calls once.
const SECOND_TEXT: &str = "module m.2
export main/0
move 7 $0
label again
sub $0 1 $0
less 0 $0 again
eq $0 0 done
call last/1 $1
yield
label done
local last/1
label first
add $0 2 $2
call_ext e:f/2 $3
print false
jump first
ret $2
end
";

const THIRD_TEXT: &str = "module m.1
export main/0
move {ok,[1,-1]} $0
elem 2 $0 $1
pget k $2
pget_or k [] $3
eq {ok,[1,-1]} $0 done
label done
end
";

const FIRST: [u64; 16] = [0, 3, 1, 1, 4, 1, 0, 8, 2, 17, 33, 6, 13, 6, 9, 34];

// The code begins at 4 + 4 * 2 = 12, and that of the second function at 12 + 19 + 2 = 33. The second instruction of
// `main` stands at 15, its end at 31. The external name is (6 * 4096 + 7) * 16 + 2 = 393330.
const SECOND: [u64; 48] = [
    0, 3, 2, 2, 4, 1, 0, 12, 5, 2, 0, 33, 1, 113, 6, 3, 6, 17, 6, 5, 1, 6, 15, 4, 6, 1, 31, 7, 1,
    22, 14, 9, 34, 2, 6, 33, 38, 8, 393330, 54, 13, 18, 6, 33, 9, 38, 9, 34,
];

// The code ends at 8 + 3 + 4 + 3 + 4 + 4 + 2 = 28. There stands the image of `{ok,[1,-1]}`, at 33 that of `[]`, at 34 the
// first again: the words of their places are 28 * 16 + 5 = 453, 533 and 549.
const THIRD: [u64; 39] = [
    0,
    3,
    1,
    1,
    4,
    1,
    0,
    8,
    1,
    453,
    6,
    12,
    33,
    6,
    22,
    10,
    82,
    38,
    11,
    82,
    533,
    54,
    4,
    549,
    6,
    26,
    9,
    34,
    35,
    34,
    36,
    17,
    18446744073709551601,
    4,
    35,
    34,
    36,
    17,
    18446744073709551601,
];

pub fn module_of(alloc: Global, text: &str) -> Result<Module, Fail> {
    let mut names = Names::new(alloc)?;
    Ok(read_module(alloc, &mut names, text.as_bytes(), 0)?)
}

// The image of a module, and no words for what is no module.
fn image_of(alloc: Global, module: &Module) -> Result<WordList, NoMemory> {
    if validate(module) {
        encode(alloc, module)
    } else {
        Ok(WordList::new(alloc))
    }
}

// Whether a module and its copy have this image.
fn have_image(alloc: Global, module: &Module, words: &[u64]) -> Result<bool, NoMemory> {
    if has_image(alloc, module, words)? {
        has_copied_image(alloc, module, words)
    } else {
        Ok(false)
    }
}

fn has_copied_image(alloc: Global, module: &Module, words: &[u64]) -> Result<bool, NoMemory> {
    let copy = module.copy(alloc)?;
    has_image(alloc, &copy, words)
}

fn has_image(alloc: Global, module: &Module, words: &[u64]) -> Result<bool, NoMemory> {
    Ok(image_of(alloc, module)?.as_slice() == words)
}

// Whether what a text is read as, and a copy of it, have this image.
fn reads_with_image(alloc: Global, text: &str, words: &[u64]) -> Result<bool, Fail> {
    let module = module_of(alloc, text)?;
    Ok(have_image(alloc, &module, words)?)
}

// Whether the words are read as a module with this image.
fn reads_as(alloc: Global, words: &[u64], image: &[u64]) -> Result<bool, ImageFault> {
    let module = decode(alloc, words)?;
    Ok(has_image(alloc, &module, image)?)
}

// Whether the words, with another one at a place, are the image of no module.
fn is_bad(alloc: Global, words: &[u64], at: usize, other: u64) -> Result<bool, NoMemory> {
    let mut changed = WordList::new(alloc);
    for (place, word) in words.iter().enumerate() {
        changed.push(if place == at { other } else { *word })?;
    }
    match decode(alloc, changed.as_slice()) {
        Ok(_) => Ok(false),
        Err(ImageFault::Bad) => Ok(true),
        Err(ImageFault::NoMemory) => Err(NoMemory),
    }
}

#[test]
fn an_image_has_heads_and_code_and_constants(rt: HostRuntime) -> Result<(), Fail> {
    let cases = [
        (FIRST_TEXT, FIRST.as_slice()),
        (SECOND_TEXT, SECOND.as_slice()),
        (THIRD_TEXT, THIRD.as_slice()),
    ];
    for (text, words) in cases {
        assert!(rt; reads_with_image(rt.alloc(), text, words)?, "at {text}");
    }
    Ok(())
}

#[test]
fn an_image_is_read_whatever_its_marks(rt: HostRuntime) {
    let images = [FIRST.as_slice(), SECOND.as_slice(), THIRD.as_slice()];
    for image in images {
        let same = reads_as(rt.alloc(), image, image).expect(&rt, "a module");
        assert!(rt; same);
    }
    let marked = [9, 3, 1, 1, 4, 1, 1, 8, 2, 17, 33, 6, 13, 6, 9, 34];
    let same = reads_as(rt.alloc(), &marked, &FIRST).expect(&rt, "a module");
    assert!(rt; same);
}

#[test]
fn other_words_are_no_image(rt: HostRuntime) {
    // Another instruction, number of functions, place of the code, return and name.
    for (at, word) in [(12, 15), (3, 2), (7, 9), (15, 18), (4, 65536)] {
        let bad = is_bad(rt.alloc(), &FIRST, at, word).expect(&rt, "an answer");
        assert!(rt; bad);
    }
    // A target between instructions, and the functions' code parted elsewhere.
    for (at, word) in [(22, 16), (11, 31)] {
        let bad = is_bad(rt.alloc(), &SECOND, at, word).expect(&rt, "an answer");
        assert!(rt; bad);
    }
    // The constant of another place, a key that is no atom, and constants that are no terms of that size.
    for (at, word) in [(9, 549), (9, 469), (16, 81), (28, 51), (33, 20)] {
        let bad = is_bad(rt.alloc(), &THIRD, at, word).expect(&rt, "an answer");
        assert!(rt; bad);
    }
}
