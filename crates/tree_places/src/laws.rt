//! What follows from the definitions alone: each of these calls does nothing, and its contract is a law.

ghost use Rattle.std.specs.Prelude.{◌≡◌, ◌↔◌, ℕ, List};
ghost use Rattle.desk_base.specs.declared.span.Span.{Span};
ghost use Rattle.java_tree.specs.declared.token.Token.{Token};
ghost use Rattle.java_tree.specs.declared.stmt.Block.{Block};
ghost use Rattle.java_tree.specs.declared.member.MemberTree.{MemberTree};
ghost use Rattle.java_tree.specs.declared.file.TypeKind.{TypeKind};
ghost use Rattle.java_tree.specs.declared.file.FileTree.{FileTree};
ghost use Rattle.java_heads.specs.declared.header.Header.{Header};
ghost use Rattle.java_heads.specs.Spelling.{HeaderSpells};
ghost use Rattle.java_members.specs.Spelling.{tokens_of};
ghost use Rattle.java_reader.specs.Alike.{Alike};
ghost use Rattle.java_reader.specs.Reads.{Reads};
ghost use Rattle.java_reader.specs.Spelling.{TypeMember};
ghost use Rattle.tree_places.specs.Moved.{moved_tokens};
ghost use Rattle.tree_places.specs.MovedStmt.{moved_block};
ghost use Rattle.tree_places.specs.MovedMember.{moved_member, moved_header};
ghost use Rattle.tree_places.specs.Bare.{bare_member, bare_header, bare_file};
ghost use Rattle.tree_places.specs.Numbers.{number_of, span_number, numbered_member, numbered_header, placed_member, placed_header};
ghost use Rattle.tree_places.specs.Units.{HasHeader, HasMember};
ghost use Rattle.tree_places.specs.Plain.{plain_block, plain_body};

use java_heads::one_part;
use java_lexer::tokens_spelled;
use java_reader::parts_follow;

/// Units of alike tokens are one tree with numbers for its places, whatever their texts and wherever
/// they stand there: members of types of one sort and name, and headers.
pub fn one_unit()
    ensures member { (first second : List ℕ) (kind : TypeKind) (name : List ℕ) (m n : MemberTree) → HasMember first kind name m → HasMember second kind name n → Alike (tokens_of m) (tokens_of n) → numbered_member m ≡ numbered_member n }
    ensures header { (first second : List ℕ) (g h : Header) → HasHeader first g → HasHeader second h → Alike g.tokens h.tokens → numbered_header g ≡ numbered_header h }
{
    parts_follow();
    one_part();
}

/// The numbers lose nothing: with its tokens a unit of a text has its places again. So each place in it
/// is that of one of its tokens.
pub fn units_are_placed()
    ensures member { (text : List ℕ) (kind : TypeKind) (name : List ℕ) (m : MemberTree) → HasMember text kind name m → placed_member (tokens_of m) (numbered_member m) ≡ m }
    ensures header { (text : List ℕ) (h : Header) → HasHeader text h → placed_header h.tokens (numbered_header h) ≡ h }
{
    parts_follow();
    one_part();
}

/// As plain data a block that is moved is the block with the numbers of the places that it is moved to,
/// and the body of a numbered member is that of the member with the numbers of its tokens.
pub fn plain_moved()
    ensures block { (move : Span → Span) (number : Span → ℕ) (b : Block) → plain_block number (moved_block move b) ≡ plain_block (λ at. number (move at)) b }
    ensures body { (m : MemberTree) → plain_body span_number (numbered_member m) ≡ plain_body (number_of (tokens_of m)) m }
{}

/// Only the places of its tokens stand in a unit: units whose tokens are the same once they are put
/// elsewhere are the same once they are put there, whatever follows their tokens.
pub fn moved_units()
    ensures member { (p q : Span → Span) (kind : TypeKind) (name : List ℕ) (m n : MemberTree) (ts rest us left : List Token) → TypeMember kind name m ts rest → TypeMember kind name n us left → moved_tokens p (tokens_of m) ≡ moved_tokens q (tokens_of n) → moved_member p m ≡ moved_member q n }
    ensures header { (p q : Span → Span) (g h : Header) (ts rest us left : List Token) → HeaderSpells g ts rest → HeaderSpells h us left → moved_tokens p g.tokens ≡ moved_tokens q h.tokens → moved_header p g ≡ moved_header q h }
{
    one_part();
}

/// Units of alike tokens are one tree but for their places, whatever follows their tokens.
pub fn alike_units()
    ensures member { (kind : TypeKind) (name : List ℕ) (m n : MemberTree) (ts rest us left : List Token) → TypeMember kind name m ts rest → TypeMember kind name n us left → Alike (tokens_of m) (tokens_of n) → bare_member m ≡ bare_member n }
    ensures header { (g h : Header) (ts rest us left : List Token) → HeaderSpells g ts rest → HeaderSpells h us left → Alike g.tokens h.tokens → bare_header g ≡ bare_header h }
{
    one_part();
}

/// Units that are one tree but for their places are of alike tokens.
pub fn alike_tokens()
    ensures member { (m n : MemberTree) → bare_member m ≡ bare_member n → Alike (tokens_of m) (tokens_of n) }
    ensures header { (g h : Header) → bare_header g ≡ bare_header h → Alike g.tokens h.tokens }
{}

/// Texts are of alike tokens exactly where their trees are one but for their places.
pub fn alike_texts()
    ensures { (first second : List ℕ) (one other : FileTree) (a : Reads first one) (b : Reads second other) → (bare_file one ≡ bare_file other) ↔ Alike a.tokens b.tokens }
{
    tokens_spelled();
}
