//! Images as JSON: the exact text, the image that is read from it, and texts that are none.

use crate::files::{FILES, here, image};
use saved_json::{read_json, write_json};
use std::alloc::Global;
use std::process::Abort;
use store_images::Image;

/// The text of the image of the stored file.
pub(crate) const TEXT: &'static str = "{\"number\":7,\"start\":1,\"next\":3,\"peak\":5,\"slots\":[\
{\"generation\":2,\"value\":12,\"made\":[\"a.rs\",3,5]},\
{\"generation\":1},\
{\"generation\":1,\"shared\":20,\"made\":[\"b.rs\",8,1]},\
{\"generation\":1,\"reference\":[2,1],\"made\":[\"a.rs\",3,5]},\
{\"generation\":1,\"reference\":[2,1],\"made\":[\"a.rs\",3,5]}]}";

/// Texts that no image of numbers has, and the error of each.
const FAULTS: [(&'static str, &'static str); 16] = [
    ("", "EOF while parsing at line 1 column 0"),
    ("[]", "invalid type at line 1 column 1"),
    ("{}", "missing field `number` at line 1 column 2"),
    (
        "{\"number\":1}",
        "missing field `start` at line 1 column 12",
    ),
    ("{\"number\":-1}", "invalid value at line 1 column 11"),
    (
        "{\"number\":18446744073709551616}",
        "invalid value at line 1 column 11",
    ),
    ("{\"number\":1.5}", "invalid value at line 1 column 11"),
    (
        "{\"number\":1,\"number\":1}",
        "duplicate field `number` at line 1 column 22",
    ),
    ("{\"size\":1}", "unknown field at line 1 column 2"),
    (
        "{\"slots\":[{\"value\":1}]}",
        "missing field `generation` at line 1 column 21",
    ),
    (
        "{\"slots\":[{\"generation\":1,\"value\":1}]}",
        "missing field `made` at line 1 column 36",
    ),
    (
        "{\"slots\":[{\"generation\":1,\"made\":[\"a\",1,1]}]}",
        "missing field `value` at line 1 column 43",
    ),
    (
        "{\"slots\":[{\"generation\":1,\"value\":1,\"shared\":2}]}",
        "duplicate field `shared` at line 1 column 46",
    ),
    (
        "{\"slots\":[{\"generation\":1,\"value\":\"a\"}]}",
        "invalid type at line 1 column 35",
    ),
    (
        "{\"slots\":[{\"generation\":1,\"reference\":[1]}]}",
        "invalid length at line 1 column 41",
    ),
    (
        "{\"number\":1,\"start\":1,\"next\":0,\"peak\":0,\"slots\":[]}}",
        "invalid JSON at line 1 column 52",
    ),
];

/// The text of an image whose value has characters that JSON escapes, in a file that has some too.
const ESCAPED: &'static str =
    "{\"number\":18446744073709551615,\"start\":1,\"next\":9007199254740993,\"peak\":1,\"slots\":[\
{\"generation\":1,\"value\":\"\\\"a\\\\\\n\",\"made\":[\"a:\\\"1\",4294967295,0]},\
{\"generation\":1,\"value\":null,\"made\":[\"a:\\\"1\",1,1]}]}";

/// What is printed of an image.
fn printed(rt: &impl Abort, alloc: Global, image: &Image<u64>) -> String {
    format!(in alloc; "{image:?}").expect(rt, "memory")
}

fn read_again(rt: &impl Abort, alloc: Global, text: &str) -> Image<u64> {
    match read_json(alloc, text, &FILES, here()) {
        Ok(image) => image,
        Err(_) => panic!(rt; "the text wasn't read"),
    }
}

#[test]
fn the_text_of_an_image_is_exact(rt: HostRuntime) {
    let alloc = rt.alloc();
    let image = image(&rt, alloc);
    let text = write_json(alloc, &image).expect(&rt, "memory");
    assert_eq!(rt; text.as_str(), TEXT);
    let again = read_again(&rt, alloc, TEXT);
    assert_eq!(rt;
        printed(&rt, alloc, &again).as_str(),
        printed(&rt, alloc, &image).as_str()
    );
}

/// Asserts the error of a text.
fn assert_fault(rt: &impl Abort, alloc: Global, text: &str, error: &str) {
    let found: Result<Image<u64>, _> = read_json(alloc, text, &FILES, here());
    match found {
        Ok(_) => panic!(rt; "{text} was read"),
        Err(fault) => {
            let printed = format!(in alloc; "{fault}").expect(rt, "memory");
            assert_eq!(rt; printed.as_str(), error);
        }
    }
}

#[test]
fn texts_with_faults_are_errors(rt: HostRuntime) {
    for (text, error) in FAULTS {
        assert_fault(&rt, rt.alloc(), text, error);
    }
}

#[test]
fn texts_are_escaped(rt: HostRuntime) {
    let alloc = rt.alloc();
    let found: Result<Image<Option<String>>, _> = read_json(alloc, ESCAPED, &["a:\"1"], here());
    let Ok(image) = found else {
        panic!(rt; "the text wasn't read")
    };
    let text = write_json(alloc, &image).expect(&rt, "memory");
    assert_eq!(rt; text.as_str(), ESCAPED);
}
