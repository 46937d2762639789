//! The forms of a report.
ghost use Rattle.std.specs.Prelude.{◌≡◌};
ghost use Rattle.stm_report.specs.Format.{format_named, format_of_width};

/// The form in which the report of a run is written.
#[derive(Clone, Copy, Debug, PartialEq, Eq)]
pub enum Format {
    /// Each line as a JSON array: the report itself, which `check` reads.
    Lines,
    /// Each line as a JSON object with named fields.
    Json,
    /// A row of text for each event, in a column of its runner or of the store, and what is left at the end.
    Text {
        /// How many characters wide it is to be, as far as that goes: the last column begins in the left half, and a value shows a third of it.
        width: Option<u32>,
    },
    /// The rows of the text as a picture.
    Svg,
    /// The rows of the text as a page for a browser, with the keys at each event.
    Html,
}

impl Format {
    /// The format of this name: `lines`, `json`, `text`, `svg` or `html`; `None` for another word.
    pub fn named(word: &str) -> Option<Format>
        ensures { result ≡ format_named word.now }
    {
        if word == "lines" {
            return Some(Format::Lines);
        }
        if word == "json" {
            return Some(Format::Json);
        }
        if word == "text" {
            return Some(Format::Text { width: None });
        }
        if word == "svg" {
            return Some(Format::Svg);
        }
        if word == "html" {
            return Some(Format::Html);
        }
        None
    }

    /// The same format, where it is text of this width.
    pub fn with_width(self, width: Option<u32>) -> Format
        ensures { result ≡ format_of_width self width }
    {
        match self {
            Format::Text { .. } => Format::Text { width },
            other => other,
        }
    }
}
