//! The operators on whole numbers, and how they are written.
ghost use Rattle.std.specs.Prelude.{◌≡◌, ◌≤◌, ◌<◌};
ghost use Rattle.stm_program.specs.Operators.{named_in, operator_named, operator_place, operator_rank, operator_sign, operator_signed, operator_word, signed_in};

/// What `add`, `sub`, `mul`, `div` and `rem` compute.
#[derive(Clone, Copy, Debug, PartialEq, Eq)]
pub enum Operator {
    /// The sum.
    Add,
    /// The left number minus the right one.
    Sub,
    /// The product.
    Mul,
    /// The quotient, truncated towards zero.
    Div,
    /// The remainder of the division, with the sign of the left number.
    Rem,
}

/// All operators. Of two signs that begin alike the longer one stands first.
pub const OPERATORS: [Operator; 5] = [
    Operator::Add,
    Operator::Sub,
    Operator::Mul,
    Operator::Div,
    Operator::Rem,
];

impl Operator {
    /// Its place among the operators, from 0.
    pub fn place(self) -> u8
        ensures is { result ≡ operator_place self }
        ensures few { result < 100 }
    {
        match self {
            Operator::Add => 0,
            Operator::Sub => 1,
            Operator::Mul => 2,
            Operator::Div => 3,
            Operator::Rem => 4,
        }
    }

    /// The word that it is in JSON.
    pub fn word(self) -> &'static str
        ensures { result.now ≡ operator_word self }
    {
        match self {
            Operator::Add => "add",
            Operator::Sub => "sub",
            Operator::Mul => "mul",
            Operator::Div => "div",
            Operator::Rem => "rem",
        }
    }

    /// The sign that it is in a source.
    pub fn sign(self) -> &'static str
        ensures { result.now ≡ operator_sign self }
    {
        match self {
            Operator::Add => "+",
            Operator::Sub => "-",
            Operator::Mul => "*",
            Operator::Div => "/",
            Operator::Rem => "%",
        }
    }

    /// How tightly it binds in a source: 2 or 3, between `++`, which is 1, and what is no operator, 4.
    pub fn rank(self) -> u8
        ensures is { result ≡ operator_rank self }
        ensures most { result ≤ 3 }
    {
        match self {
            Operator::Add | Operator::Sub => 2,
            Operator::Mul | Operator::Div | Operator::Rem => 3,
        }
    }

    /// The operator that is this word in JSON, if there is one.
    pub fn named(word: &str) -> Option<Operator>
        ensures { result ≡ operator_named word.now }
    {
        named_in(&OPERATORS, word)
    }

    /// The operator with whose sign these bytes begin, if there is one.
    pub fn signed(bytes: &[u8]) -> Option<Operator>
        ensures { result ≡ operator_signed bytes.now }
    {
        signed_in(&OPERATORS, bytes)
    }
}

/// The first of these that is this word in JSON.
fn named_in(operators: &[Operator], word: &str) -> Option<Operator>
    ensures { result ≡ named_in operators.now word.now }
{
    for operator in operators {
        if word == operator.word() {
            return Some(*operator);
        }
    }
    None
}

/// The first of these with whose sign bytes begin.
fn signed_in(operators: &[Operator], bytes: &[u8]) -> Option<Operator>
    ensures { result ≡ signed_in operators.now bytes.now }
{
    for operator in operators {
        if bytes.starts_with(operator.sign().as_bytes()) {
            return Some(*operator);
        }
    }
    None
}
