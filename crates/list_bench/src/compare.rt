//! Both readers on many texts.
ghost use Rattle.std.specs.Prelude.{◌≤◌, length};

use list::{DrawList, MOST_BYTES, ReadFault, read, read_by_value, read_in_one_pass};
use std::alloc::Global;
use std::io;

/// The byte between two texts. It stands in no UTF-8.
const END: u8 = 0xff;

/// What reading gave, as a text, or `None` if there is no memory for it.
fn shown(alloc: Global, found: &Result<DrawList, ReadFault>) -> Option<String> {
    format!(in alloc; "{found:?}").ok()
}

/// Whether the list of one pass, if there is one, and what `read` returns are what the value gives.
fn are_same(alloc: Global, text: &[u8], in_one_pass: Option<DrawList>) -> Option<bool>
    requires { length text.now ≤ MOST_BYTES }
{
    let wanted = shown(alloc, &read_by_value(alloc, text))?;
    if let Some(list) = in_one_pass {
        if shown(alloc, &Ok(list))? != wanted {
            return Some(false);
        }
    }
    Some(shown(alloc, &read(alloc, text))? == wanted)
}

/// Reads each text by both readers, and prints the number of each text of which they do not give the same.
pub(crate) fn compare_all(rt: &impl Print, alloc: Global, bytes: &[u8]) -> io::Result<()> {
    let (mut texts, mut taken, mut differ) = (0u64, 0u64, 0u64);
    for text in bytes.split(|byte| *byte == END) {
        if text.len() > MOST_BYTES {
            continue;
        }
        let in_one_pass = read_in_one_pass(alloc, text);
        taken = taken.saturating_add(u64::from(in_one_pass.is_some()));
        if are_same(alloc, text, in_one_pass) != Some(true) {
            println!(rt; "text {texts} differs")?;
            differ = differ.saturating_add(1);
        }
        texts = texts.saturating_add(1);
    }
    println!(rt; "{texts} texts, {taken} read in one pass, {differ} differ")
}
