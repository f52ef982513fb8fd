//! What may go to another thread.

use crate::{NoteIn, NoteOut, Post, Told};

/// Takes what may go to another thread.
fn needs_send<T: Send + Drop>(_value: T) {}

/// Posts, the ends of a note link, and what is told over it may.
fn ends_are_send(post: Post, told: NoteIn, heard: NoteOut, word: Told) {
    needs_send(post);
    needs_send(told);
    needs_send(heard);
    needs_send(word);
}
