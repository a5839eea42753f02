ghost use Rattle.std.specs.Prelude.{◌≡◌, map};
ghost use Rattle.std.specs.List.{list_any, list_all};
ghost use Rattle.std.specs.Str.{bytes_eq};
ghost use Rattle.promise_grammar.specs.Word as spec;

/// Java's reserved words and literals (JLS 8, 3.9 and 3.10), which are no names.
const RESERVED: [&[u8]; 53] = [
    b"abstract",
    b"assert",
    b"boolean",
    b"break",
    b"byte",
    b"case",
    b"catch",
    b"char",
    b"class",
    b"const",
    b"continue",
    b"default",
    b"do",
    b"double",
    b"else",
    b"enum",
    b"extends",
    b"final",
    b"finally",
    b"float",
    b"for",
    b"goto",
    b"if",
    b"implements",
    b"import",
    b"instanceof",
    b"int",
    b"interface",
    b"long",
    b"native",
    b"new",
    b"package",
    b"private",
    b"protected",
    b"public",
    b"return",
    b"short",
    b"static",
    b"strictfp",
    b"super",
    b"switch",
    b"synchronized",
    b"this",
    b"throw",
    b"throws",
    b"transient",
    b"try",
    b"void",
    b"volatile",
    b"while",
    b"true",
    b"false",
    b"null",
];

/// Space or tab, which separate the words of a content.
pub fn is_blank(byte: u8) -> bool
    ensures { result ≡ spec.is_blank byte }
{
    byte == b' ' || byte == b'\t'
}

/// A letter, `_` or `$`, with which a name may begin.
fn is_letter(byte: u8) -> bool
    ensures { result ≡ spec.is_letter byte }
{
    byte.is_ascii_alphabetic() || byte == b'_' || byte == b'$'
}

/// A letter, `_`, `$` or a digit, of which names are made.
fn is_name_byte(byte: u8) -> bool
    ensures { result ≡ spec.is_name_byte byte }
{
    is_letter(byte) || byte.is_ascii_digit()
}

/// A byte of a name, or the `*` of a pattern.
pub fn is_word_byte(byte: u8) -> bool
    ensures { result ≡ spec.is_word_byte byte }
{
    is_name_byte(byte) || byte == b'*'
}

/// Whether the table has the word.
fn is_among(mut table: &[&[u8]], word: &[u8]) -> bool
    ensures { result ≡ list_any (λ known. bytes_eq known word.now) (map (λ known. known.now) table.entry.now) }
{
    while let [known, rest @ ..] = table {
        if *known == word {
            return true;
        }
        table = rest;
    }
    false
}

fn is_reserved(word: &[u8]) -> bool
    ensures { result ≡ spec.is_reserved word.now }
{
    is_among(&RESERVED, word)
}

fn begins_name(word: &[u8]) -> bool
    ensures { result ≡ spec.begins_name word.now }
{
    match word {
        [] => false,
        [first, ..] => is_letter(*first),
    }
}

fn are_name_bytes(word: &[u8]) -> bool
    ensures { result ≡ list_all spec.is_name_byte word.now }
{
    word.iter().all(|byte| is_name_byte(*byte))
}

/// A name of Java (JLS 8, 3.8), ASCII alone: no reserved word, literal or empty word. It may be
/// longer than a name of a file.
#[tactic(auto, unfolding(crate::specs::Word::is_name))]
pub fn is_name(word: &[u8]) -> bool
    ensures { result ≡ spec.is_name word.now }
{
    begins_name(word) && are_name_bytes(word) && !is_reserved(word)
}
