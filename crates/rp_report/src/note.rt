//! What is to be known of inputs that have no fault.

use rp_json_line::JsonLine;

/// What is to be known of an input, or of all of them: its rows may not be read as they are meant.
pub struct FoundNote {
    /// The path of the file that it is about, where there are several; None where it is about all.
    pub file: Option<String>,
    /// What is said, without a line end.
    pub message: String,
}

/// It is let go of by a call, wherever it is held.
impl Drop for FoundNote {
    fn drop(self) {
        let FoundNote {
            file: _,
            message: _,
        } = self;
    }
}

/// Writes notes, where there are some.
pub(crate) fn write_notes(line: &mut JsonLine, notes: &[FoundNote]) {
    if notes.is_empty() {
        return;
    }
    line.name("notes");
    line.begin_array();
    for note in notes {
        write_note(line, note);
    }
    line.end_array();
}

fn write_note(line: &mut JsonLine, note: &FoundNote) {
    line.begin_object();
    if let Some(file) = &note.file {
        line.text("file", file.as_str());
    }
    line.text("message", note.message.as_str());
    line.end_object();
}
