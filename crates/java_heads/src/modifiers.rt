//! Modifiers, and which may stand before which declaration.

ghost use Rattle.std.specs.Prelude.{◌≡◌, [], count_by};
ghost use Rattle.java_phrases.specs.Parser.{turns};
ghost use Rattle.java_phrases.specs.Cursor.{ahead, Steps};
ghost use Rattle.java_heads.specs.Modifiers as table;
ghost use Rattle.java_heads.specs.Reading as spec;

use crate::annotation::annotation;
use crate::declaration::Declaration;
use desk_base::Items;
use java_phrases::{SyntaxError, Tokens};
use java_tree::{Kind, Mod, ModWord};
use std::alloc::Global;

fn kind_of(word: ModWord) -> Kind
    ensures { result ≡ table.kind_of word }
{
    match word {
        ModWord::Public => Kind::Public,
        ModWord::Protected => Kind::Protected,
        ModWord::Private => Kind::Private,
        ModWord::Static => Kind::Static,
        ModWord::Final => Kind::Final,
        ModWord::Abstract => Kind::Abstract,
        ModWord::Synchronized => Kind::Synchronized,
    }
}

#[tactic(auto, unfolding(crate::specs::Reading::next_word))]
fn next_word(tokens: &Tokens) -> Option<ModWord>
    ensures { result ≡ spec.next_word (ahead tokens.now) }
{
    match tokens.peek() {
        Some(Kind::Public) => Some(ModWord::Public),
        Some(Kind::Protected) => Some(ModWord::Protected),
        Some(Kind::Private) => Some(ModWord::Private),
        Some(Kind::Static) => Some(ModWord::Static),
        Some(Kind::Final) => Some(ModWord::Final),
        Some(Kind::Abstract) => Some(ModWord::Abstract),
        Some(Kind::Synchronized) => Some(ModWord::Synchronized),
        _ => None,
    }
}

#[tactic(auto, unfolding(crate::specs::Reading::starts_mod))]
fn starts_mod(tokens: &Tokens) -> bool
    ensures { result ≡ spec.starts_mod (ahead tokens.now) }
{
    tokens.sees(Kind::At) || next_word(tokens).is_some()
}

#[tactic(auto, unfolding(crate::specs::Reading::one_modifier))]
fn one_modifier(alloc: Global, tokens: &mut Tokens) -> Result<Mod, SyntaxError>
    ensures { Steps spec.one_modifier tokens.old result tokens.new }
{
    if tokens.sees(Kind::At) {
        return Ok(Mod::Annot(annotation(alloc, tokens)?));
    }
    match next_word(tokens) {
        None => Err(SyntaxError::NotSpelled),
        Some(word) => {
            let at = tokens.sign(kind_of(word))?;
            Ok(Mod::Word(word, at))
        }
    }
}

#[tactic(auto, unfolding(crate::specs::Reading::also))]
fn also_modifier(
    alloc: Global,
    tokens: &mut Tokens,
    found: Items<Mod>,
) -> Result<Items<Mod>, SyntaxError>
    ensures { Steps (spec.also spec.one_modifier found) tokens.old result tokens.new }
{
    let mut found = found;
    found.push(one_modifier(alloc, tokens)?)?;
    Ok(found)
}

fn more_modifiers(
    alloc: Global,
    tokens: &mut Tokens,
    found: Items<Mod>,
) -> Result<Items<Mod>, SyntaxError>
    ensures { Steps (turns spec.starts_mod (spec.also spec.one_modifier) found) tokens.old result tokens.new }
{
    let mut found = found;
    'more: while starts_mod(tokens) {
        found = also_modifier(alloc, tokens, found)?;
    }
    Ok(found)
}

/// Reads modifiers up to what none begins with, whichever words they are.
#[tactic(auto, unfolding(crate::specs::Reading::all_modifiers))]
pub(crate) fn read_all_modifiers(
    alloc: Global,
    tokens: &mut Tokens,
) -> Result<Items<Mod>, SyntaxError>
    ensures { Steps spec.all_modifiers tokens.old result tokens.new }
{
    more_modifiers(alloc, tokens, Items::new(alloc))
}

// ---- which words may stand there

fn may_have(declaration: Declaration, word: ModWord) -> bool
    ensures { result ≡ table.may_have declaration word }
{
    match declaration {
        Declaration::Class => matches!(word, ModWord::Public | ModWord::Final),
        Declaration::Interface => matches!(word, ModWord::Public),
        Declaration::Field => !matches!(word, ModWord::Abstract | ModWord::Synchronized),
        Declaration::Method => !matches!(word, ModWord::Abstract),
        Declaration::Sig => matches!(word, ModWord::Public | ModWord::Abstract),
        Declaration::Ctor => is_access(word),
        Declaration::Main => {
            matches!(
                word,
                ModWord::Public | ModWord::Static | ModWord::Final | ModWord::Synchronized
            )
        }
        Declaration::Param => matches!(word, ModWord::Final),
    }
}

fn must_have(declaration: Declaration, word: ModWord) -> bool
    ensures { result ≡ table.must_have declaration word }
{
    match declaration {
        Declaration::Main => matches!(word, ModWord::Public | ModWord::Static),
        _ => false,
    }
}

fn is_access(word: ModWord) -> bool
    ensures { result ≡ table.is_access word }
{
    matches!(
        word,
        ModWord::Public | ModWord::Protected | ModWord::Private
    )
}

fn is_word(modifier: &Mod, word: ModWord) -> bool
    ensures { result ≡ table.word_is (table.same_word word) modifier.now }
{
    match modifier {
        Mod::Annot(_) => false,
        Mod::Word(found, _) => word == *found,
    }
}

#[tactic(auto, unfolding(crate::specs::Modifiers::access_word))]
fn is_access_word(modifier: &Mod) -> bool
    ensures { result ≡ table.access_word modifier.now }
{
    match modifier {
        Mod::Annot(_) => false,
        Mod::Word(found, _) => is_access(*found),
    }
}

fn times(mods: &[Mod], word: ModWord) -> usize
    ensures { result ≡ table.words_that (table.same_word word) mods.now }
{
    mods.iter()
        .filter(|modifier| is_word(modifier, word))
        .count()
}

fn access_words(mods: &[Mod]) -> usize
    ensures { result ≡ count_by table.access_word mods.now }
{
    let mut count = 0;
    for modifier in mods {
        if is_access_word(modifier) {
            count += 1;
        }
    }
    count
}

#[tactic(auto, unfolding(crate::specs::Reading::word_fits))]
fn word_fits(declaration: Declaration, mods: &[Mod], word: ModWord) -> bool
    ensures { result ≡ spec.word_fits declaration mods.now word }
{
    let times = times(mods, word);
    if times == 0 {
        !must_have(declaration, word)
    } else {
        times == 1 && may_have(declaration, word)
    }
}

/// Whether these modifiers may stand before the declaration: no word twice, none that may not stand
/// there, each that has to, and at most one of `public`, `protected` and `private`.
#[tactic(auto, unfolding(crate::specs::Reading::fits, crate::specs::Modifiers::access_word))]
pub(crate) fn modifiers_fit(declaration: Declaration, mods: &[Mod]) -> bool
    ensures { result ≡ spec.fits declaration mods.now }
{
    word_fits(declaration, mods, ModWord::Public)
        && word_fits(declaration, mods, ModWord::Protected)
        && word_fits(declaration, mods, ModWord::Private)
        && word_fits(declaration, mods, ModWord::Static)
        && word_fits(declaration, mods, ModWord::Final)
        && word_fits(declaration, mods, ModWord::Abstract)
        && word_fits(declaration, mods, ModWord::Synchronized)
        && access_words(mods) <= 1
}

/// Reads modifiers that may stand before the declaration.
#[tactic(auto, unfolding(crate::specs::Reading::modifiers))]
pub(crate) fn read_modifiers(
    alloc: Global,
    tokens: &mut Tokens,
    declaration: Declaration,
) -> Result<Items<Mod>, SyntaxError>
    ensures { Steps (spec.modifiers declaration) tokens.old result tokens.new }
{
    let mods = read_all_modifiers(alloc, tokens)?;
    if !modifiers_fit(declaration, mods.as_slice()) {
        return Err(SyntaxError::NotSpelled);
    }
    Ok(mods)
}
