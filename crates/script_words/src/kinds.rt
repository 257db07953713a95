//! The commands of a script, and what their words stand for.
ghost use Rattle.std.specs.Prelude.{◌≡◌};
ghost use Rattle.std.specs.Str.{bytes_eq};
ghost use Rattle.script_words.specs.Kinds.{own_words, routine_words, command_in, command_word, kinds_of, takes_more, has_count};

/// A command, as the first word of its line names it.
#[derive(Clone, Copy)]
pub enum CommandWord {
    Grid,
    Matrix,
    Pgemm,
    Ptrsm,
    Pgetrf,
    Pgetrs,
    Pgemr2d,
    Print,
    Pivots,
    Discard,
    Topology,
    Links,
    Order,
    Lose,
    Spares,
    Field,
    Ptran,
    Pgetri,
    Flip,
    Pverify,
}

/// What a word of a line stands for.
#[derive(Clone, Copy)]
pub enum Kind {
    /// A name that is not in use.
    NewName,
    /// The name of a grid.
    GridName,
    /// The name of a live matrix.
    MatrixName,
    /// The name of a live pivot list.
    ListName,
    /// The name of a live matrix or a live pivot list.
    ThingName,
    Number,
    /// The name of a file, in UTF-8.
    FileName,
    /// An option, which the rules of the command read.
    Letter,
}

static GRID: [Kind; 4] = [Kind::NewName, Kind::Number, Kind::Number, Kind::Number];

static MATRIX: [Kind; 9] = [
    Kind::NewName,
    Kind::GridName,
    Kind::Number,
    Kind::Number,
    Kind::Number,
    Kind::Number,
    Kind::Number,
    Kind::Number,
    Kind::FileName,
];

static PGEMM: [Kind; 16] = [
    Kind::Letter,
    Kind::Letter,
    Kind::Number,
    Kind::Number,
    Kind::Number,
    Kind::Number,
    Kind::MatrixName,
    Kind::Number,
    Kind::Number,
    Kind::MatrixName,
    Kind::Number,
    Kind::Number,
    Kind::Number,
    Kind::MatrixName,
    Kind::Number,
    Kind::Number,
];

static PTRSM: [Kind; 13] = [
    Kind::Letter,
    Kind::Letter,
    Kind::Letter,
    Kind::Letter,
    Kind::Number,
    Kind::Number,
    Kind::Number,
    Kind::MatrixName,
    Kind::Number,
    Kind::Number,
    Kind::MatrixName,
    Kind::Number,
    Kind::Number,
];

static PGETRF: [Kind; 6] = [
    Kind::Number,
    Kind::Number,
    Kind::MatrixName,
    Kind::Number,
    Kind::Number,
    Kind::NewName,
];

static PGETRS: [Kind; 10] = [
    Kind::Letter,
    Kind::Number,
    Kind::Number,
    Kind::MatrixName,
    Kind::Number,
    Kind::Number,
    Kind::ListName,
    Kind::MatrixName,
    Kind::Number,
    Kind::Number,
];

static PGEMR2D: [Kind; 9] = [
    Kind::Number,
    Kind::Number,
    Kind::MatrixName,
    Kind::Number,
    Kind::Number,
    Kind::MatrixName,
    Kind::Number,
    Kind::Number,
    Kind::Letter,
];

static PTRAN: [Kind; 10] = [
    Kind::Number,
    Kind::Number,
    Kind::Number,
    Kind::MatrixName,
    Kind::Number,
    Kind::Number,
    Kind::Number,
    Kind::MatrixName,
    Kind::Number,
    Kind::Number,
];

static PGETRI: [Kind; 8] = [
    Kind::Number,
    Kind::MatrixName,
    Kind::Number,
    Kind::Number,
    Kind::ListName,
    Kind::MatrixName,
    Kind::Number,
    Kind::Number,
];

static MATRIX_NAME: [Kind; 1] = [Kind::MatrixName];

static PIVOTS: [Kind; 1] = [Kind::ListName];

static DROP: [Kind; 1] = [Kind::ThingName];

static LETTER: [Kind; 1] = [Kind::Letter];

static NUMBER: [Kind; 1] = [Kind::Number];

static LOSE: [Kind; 2] = [Kind::Number, Kind::Number];

static FLIP: [Kind; 4] = [Kind::MatrixName, Kind::Number, Kind::Number, Kind::Number];

impl CommandWord {
    /// What the words after the first stand for.
    pub fn kinds(self) -> &'static [Kind]
        ensures { result.now ≡ kinds_of self }
    {
        match self {
            CommandWord::Grid => &GRID,
            CommandWord::Matrix => &MATRIX,
            CommandWord::Pgemm => &PGEMM,
            CommandWord::Ptrsm => &PTRSM,
            CommandWord::Pgetrf => &PGETRF,
            CommandWord::Pgetrs => &PGETRS,
            CommandWord::Pgemr2d => &PGEMR2D,
            CommandWord::Print => &MATRIX_NAME,
            CommandWord::Pivots => &PIVOTS,
            CommandWord::Discard => &DROP,
            CommandWord::Topology => &LETTER,
            CommandWord::Links => &NUMBER,
            CommandWord::Order => &NUMBER,
            CommandWord::Lose => &LOSE,
            CommandWord::Spares => &NUMBER,
            CommandWord::Field => &NUMBER,
            CommandWord::Ptran => &PTRAN,
            CommandWord::Pgetri => &PGETRI,
            CommandWord::Flip => &FLIP,
            CommandWord::Pverify => &MATRIX_NAME,
        }
    }

    /// Whether further numbers may follow its last word.
    pub fn takes_more(self) -> bool
        ensures { result ≡ takes_more self }
    {
        matches!(self, CommandWord::Order)
    }

    /// Whether the command may have so many words after its first.
    pub fn has_count(self, count: usize) -> bool
        ensures { result ≡ has_count self count }
    {
        let kinds = self.kinds();
        if self.takes_more() {
            kinds.len() <= count
        } else {
            count == kinds.len()
        }
    }
}

/// Whether a word is this one.
pub fn is_word(word: &[u8], name: &[u8]) -> bool
    ensures { result ≡ bytes_eq word.now name.now }
{
    word == name
}

// The commands of the script's own.
fn own_word(word: &[u8]) -> Option<CommandWord>
    ensures { result ≡ command_in own_words word.now }
{
    if is_word(word, b"grid") {
        Some(CommandWord::Grid)
    } else if is_word(word, b"matrix") {
        Some(CommandWord::Matrix)
    } else if is_word(word, b"print") {
        Some(CommandWord::Print)
    } else if is_word(word, b"pivots") {
        Some(CommandWord::Pivots)
    } else if is_word(word, b"drop") {
        Some(CommandWord::Discard)
    } else if is_word(word, b"topology") {
        Some(CommandWord::Topology)
    } else if is_word(word, b"links") {
        Some(CommandWord::Links)
    } else if is_word(word, b"order") {
        Some(CommandWord::Order)
    } else if is_word(word, b"lose") {
        Some(CommandWord::Lose)
    } else if is_word(word, b"spares") {
        Some(CommandWord::Spares)
    } else if is_word(word, b"field") {
        Some(CommandWord::Field)
    } else if is_word(word, b"flip") {
        Some(CommandWord::Flip)
    } else {
        None
    }
}

// The routines of the library.
fn routine_word(word: &[u8]) -> Option<CommandWord>
    ensures { result ≡ command_in routine_words word.now }
{
    if is_word(word, b"pgemm") {
        Some(CommandWord::Pgemm)
    } else if is_word(word, b"ptrsm") {
        Some(CommandWord::Ptrsm)
    } else if is_word(word, b"pgetrf") {
        Some(CommandWord::Pgetrf)
    } else if is_word(word, b"pgetrs") {
        Some(CommandWord::Pgetrs)
    } else if is_word(word, b"pgemr2d") {
        Some(CommandWord::Pgemr2d)
    } else if is_word(word, b"ptran") {
        Some(CommandWord::Ptran)
    } else if is_word(word, b"pgetri") {
        Some(CommandWord::Pgetri)
    } else if is_word(word, b"pverify") {
        Some(CommandWord::Pverify)
    } else {
        None
    }
}

/// The command that a first word is.
#[tactic(auto, unfolding(crate::specs::Kinds::command_word))]
pub fn command_word(word: &[u8]) -> Option<CommandWord>
    ensures { result ≡ command_word word.now }
{
    match own_word(word) {
        Some(command) => Some(command),
        None => routine_word(word),
    }
}
