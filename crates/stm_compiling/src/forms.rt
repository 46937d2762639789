//! The words behind which parentheses stand: the one table of them.

use crate::spots::Spot;

/// What a word has in its parentheses, and gives.
#[derive(Clone, Copy)]
pub(crate) struct Form {
    /// What is wanted where the first value in them begins.
    pub(crate) value: &'static str,
    /// What is wanted behind that value, beside an operator.
    pub(crate) behind: &'static str,
    /// Whether numbers stand in them, and not texts; nothing where either may.
    pub(crate) takes_number: Option<bool>,
    /// Whether it is a number, and not a text; nothing where it is no value.
    pub(crate) gives_number: Option<bool>,
}

/// What is wanted behind a value in parentheses, beside an operator, where nothing says more.
pub(crate) const ANY_END: &str = "a comma, or the ) that ends what stands in it";

const NUMBER: Option<bool> = Some(true);

const TEXT: Option<bool> = Some(false);

/// The form of a word, if it has one.
pub(crate) fn form_of(word: &str) -> Option<Form> {
    let (value, behind, takes_number, gives_number) = match word {
        "put" => (
            "the key of put(KEY, VALUE)",
            "a comma and the value of put(KEY, VALUE)",
            TEXT,
            None,
        ),
        "del" => ("the key of del(KEY)", "the ) of del(KEY)", TEXT, None),
        "emit" => (
            "the value of emit(VALUE)",
            "the ) of emit(VALUE)",
            None,
            None,
        ),
        "abort" => (
            "the text of abort(TEXT)",
            "the ) of abort(TEXT)",
            TEXT,
            None,
        ),
        "prefetch" => ("a key of the list, a text,", ANY_END, None, None),
        "get" => ("the key of get(KEY)", "the ) of get(KEY)", TEXT, TEXT),
        "rev" => ("the key of rev(KEY)", "the ) of rev(KEY)", TEXT, NUMBER),
        "num_of" => (
            "the text of num_of(TEXT)",
            "the ) of num_of(TEXT)",
            TEXT,
            NUMBER,
        ),
        "text_of" => (
            "the number of text_of(NUMBER)",
            "the ) of text_of(NUMBER)",
            NUMBER,
            TEXT,
        ),
        _ => return None,
    };
    Some(Form {
        value,
        behind,
        takes_number,
        gives_number,
    })
}

/// The form of the word in whose parentheses a place is.
pub(crate) fn form_in(spot: Spot<'_>) -> Option<Form> {
    form_of(spot.call.word)
}
