ghost use Rattle.std.specs.Prelude.{◌≡◌, List, IfOk, OnOk};
ghost use Rattle.java_tree.specs.declared.token.Token.{Token};
ghost use Rattle.java_tree.specs.declared.stmt.Block.{Block};
ghost use Rattle.java_phrases.specs.Cursor.{ahead, from_start};
ghost use Rattle.java_statements.specs.Spelling.{BlockSpells};
ghost use Rattle.java_phrases.specs.Answers.{Gives};

use crate::statements::block;
use java_phrases::{SyntaxError, Tokens};
use java_tree::Block;
use std::alloc::Global;

/// Reads a block with at most `limit` nodes on a path (JLS 8, 14, as far as the subset goes).
/// `NotSpelled` comes exactly where the tokens ahead begin with no such block; where the cursor
/// stands then isn't said.
pub fn read_block(alloc: Global, tokens: &mut Tokens, limit: u8) -> Result<Block, SyntaxError>
    ensures found { IfOk result (λ b. BlockSpells limit b (ahead tokens.old) (ahead tokens.new)) }
    ensures only { (b : Block) (rest : List Token) → BlockSpells limit b (ahead tokens.old) rest → Gives result (ahead tokens.new) b rest }
    ensures kept { OnOk result (from_start tokens.new ≡ from_start tokens.old) }
{
    block(alloc, tokens, limit)
}
