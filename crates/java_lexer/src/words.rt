//! The reserved words.
ghost use Rattle.std.specs.Prelude.{◌≡◌, map};
ghost use Rattle.java_lexer.specs.Words as spec;

use java_tree::Kind;

/// The reserved words with their kinds, and `true`, `false` and `null` (JLS 8, 3.9, 3.10.3, 3.10.7).
pub const WORDS: [(&[u8], Kind); 53] = [
    (b"abstract", Kind::Abstract),
    (b"assert", Kind::Assert),
    (b"boolean", Kind::BooleanType),
    (b"break", Kind::Break),
    (b"byte", Kind::Byte),
    (b"case", Kind::Case),
    (b"catch", Kind::Catch),
    (b"char", Kind::Char),
    (b"class", Kind::Class),
    (b"const", Kind::Const),
    (b"continue", Kind::Continue),
    (b"default", Kind::Default),
    (b"do", Kind::Do),
    (b"double", Kind::Double),
    (b"else", Kind::Else),
    (b"enum", Kind::Enum),
    (b"extends", Kind::Extends),
    (b"false", Kind::False),
    (b"final", Kind::Final),
    (b"finally", Kind::Finally),
    (b"float", Kind::Float),
    (b"for", Kind::For),
    (b"goto", Kind::Goto),
    (b"if", Kind::If),
    (b"implements", Kind::Implements),
    (b"import", Kind::Import),
    (b"instanceof", Kind::Instanceof),
    (b"int", Kind::IntType),
    (b"interface", Kind::Interface),
    (b"long", Kind::Long),
    (b"native", Kind::Native),
    (b"new", Kind::New),
    (b"null", Kind::Null),
    (b"package", Kind::Package),
    (b"private", Kind::Private),
    (b"protected", Kind::Protected),
    (b"public", Kind::Public),
    (b"return", Kind::Return),
    (b"short", Kind::Short),
    (b"static", Kind::Static),
    (b"strictfp", Kind::Strictfp),
    (b"super", Kind::Super),
    (b"switch", Kind::Switch),
    (b"synchronized", Kind::Synchronized),
    (b"this", Kind::This),
    (b"throw", Kind::Throw),
    (b"throws", Kind::Throws),
    (b"transient", Kind::Transient),
    (b"true", Kind::True),
    (b"try", Kind::Try),
    (b"void", Kind::Void),
    (b"volatile", Kind::Volatile),
    (b"while", Kind::While),
];

/// The kind of a reserved word.
#[tactic(auto, unfolding(crate::specs::Words::words))]
pub fn word_kind(word: &[u8]) -> Option<Kind>
    ensures { result ≡ spec.lookup spec.words word.now }
{
    lookup(&WORDS, word)
}

/// The kind of a word among these.
fn lookup(mut table: &[(&[u8], Kind)], word: &[u8]) -> Option<Kind>
    ensures { result ≡ spec.lookup (map (λ k. (k.0.now, k.1)) table.entry.now) word.now }
{
    while let [entry, rest @ ..] = table {
        if entry.0 == word {
            return Some(entry.1);
        }
        table = rest;
    }
    None
}
