// What is wrong with card images.
use images::diagnose::diagnose;
use images::diagnosis::Cause;
use images::turns::turn_round;

// A byte of an image.
#[derive(Clone, Copy)]
struct Byte(usize, u8);

// A zero page, and one with so many bytes set, in an image of two pages; what is expected of it: the page, the byte, the cause and whether
// the other byte order is the likely cause.
#[derive(Clone, Copy)]
struct Case(&'static str, [Byte; 3], Option<(usize, usize, Cause, bool)>);

const NONE: Byte = Byte(0, 0);

// Byte 0 of the first page is written last where it is named last.
const CASES: [Case; 16] = [
    Case("empty", [NONE, NONE, NONE], None),
    Case("sound", [Byte(0, 1), Byte(3, 0xF0), Byte(7, 0x80)], None),
    Case(
        "other order",
        [Byte(0, 0xF0), Byte(3, 9), NONE],
        Some((0, 3, Cause::Kind, true)),
    ),
    Case(
        "longest in the other order",
        [Byte(0, 0xF0), Byte(3, 127), NONE],
        Some((0, 3, Cause::Kind, true)),
    ),
    Case(
        "too long in either",
        [Byte(0, 0xF0), Byte(3, 128), NONE],
        Some((0, 3, Cause::Kind, false)),
    ),
    Case(
        "other kind",
        [Byte(0, 2), Byte(3, 0xE0), NONE],
        Some((0, 3, Cause::Kind, false)),
    ),
    Case(
        "bit 8",
        [Byte(0, 2), Byte(1, 1), Byte(3, 0xF0)],
        Some((0, 1, Cause::ZeroBits, false)),
    ),
    Case(
        "bit 23",
        [Byte(0, 2), Byte(2, 0x80), Byte(3, 0xF0)],
        Some((0, 2, Cause::ZeroBits, false)),
    ),
    Case(
        "bit 27",
        [Byte(0, 2), Byte(3, 0xF8), NONE],
        Some((0, 3, Cause::ZeroBits, false)),
    ),
    Case(
        "no words",
        [Byte(3, 0xF0), NONE, NONE],
        Some((0, 0, Cause::Length, false)),
    ),
    Case(
        "128 words",
        [Byte(0, 128), Byte(3, 0xF0), NONE],
        Some((0, 0, Cause::Length, false)),
    ),
    Case(
        "after the words",
        [Byte(0, 2), Byte(3, 0xF0), Byte(12, 1)],
        Some((0, 12, Cause::AfterWords, false)),
    ),
    Case(
        "at the end",
        [Byte(0, 2), Byte(3, 0xF0), Byte(511, 1)],
        Some((0, 511, Cause::AfterWords, false)),
    ),
    Case(
        "in an empty page",
        [Byte(812, 1), Byte(912, 1), NONE],
        Some((512, 812, Cause::EmptyPage, false)),
    ),
    Case(
        "after an empty page",
        [Byte(512, 2), Byte(515, 0xF0), NONE],
        Some((512, 512, Cause::AfterEmpty, false)),
    ),
    Case(
        "other order, second page",
        [Byte(512, 0xF0), Byte(515, 9), NONE],
        Some((512, 515, Cause::Kind, true)),
    ),
];

// The image of a case.
fn image(bytes: &[Byte; 3]) -> [u8; 1024] {
    let mut image = [0; 1024];
    for byte in bytes {
        if byte.0 < 1024 && byte.1 != 0 {
            image[byte.0] = byte.1;
        }
    }
    image
}

#[test]
fn what_is_wrong_with_images(rt: HostRuntime) {
    for case in &CASES {
        let found = match diagnose(&image(&case.1)) {
            Some(d) => Some((d.fault.place, d.byte, d.cause, d.foreign)),
            None => None,
        };
        assert_eq!(rt; found, case.2, "{}", case.0);
    }
}

// Three bytes after the last whole word stay.
#[test]
fn words_turned_round(rt: HostRuntime) {
    let mut bytes = [1, 2, 3, 4, 5, 6, 7, 8, 9, 10, 11];
    turn_round(&mut bytes);
    assert_eq!(rt; bytes, [4, 3, 2, 1, 8, 7, 6, 5, 9, 10, 11]);
}
