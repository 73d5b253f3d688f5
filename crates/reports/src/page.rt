// The page that a report is written on.
use crate::text::Text;

mod lines;
pub mod telling;

// The bytes of the longest report, and some more.
pub const PAGE_ROOM: usize = 4300;

// A page with the text of the report that was told last. (No `impl Model` beside `Text`'s: contracts see it by `text_on`.)
#[derive(Drop)]
pub struct Page {
    text: Text,
}
