// What reading a file says.
use index::refusal::Refusal;
use level::{AnyLevel, read};
use lines::fault::ReadFault;

// The fault, if the file has one.
pub fn fault(text: &[u8]) -> Option<ReadFault> {
    read(text).err()
}

// The file is a level.
pub fn fine(text: &[u8]) -> bool {
    fault(text) == None
}

// A word of a line is wrong, missing or left over.
pub fn form(text: &[u8], line: usize, word: usize) -> bool {
    fault(text) == Some(ReadFault::Form { line, word })
}

// A line is missing or left over.
pub fn line(text: &[u8], line: usize) -> bool {
    fault(text) == Some(ReadFault::Line { line })
}

// A setting of line 1 is refused.
pub fn setting(text: &[u8], value: u32) -> bool {
    let refusal = Refusal::Setting(value);
    fault(text) == Some(ReadFault::Setting { line: 1, refusal })
}

// How many walls and calls a level has.
pub fn counts(text: &[u8]) -> Option<(usize, usize)> {
    match read(text).ok()? {
        AnyLevel::Arms(level) => Some((level.walls.len(), level.calls.len())),
        AnyLevel::Cards(level) => Some((level.walls.len(), level.calls.len())),
    }
}
