//! Laws of walks over texts and bytes.
ghost use Rattle.std.specs.Prelude.{◌≡◌, ℕ, List, Ok, Some, false};
ghost use Rattle.build_base.specs.declared.fault.Place.{Place};
ghost use Rattle.build_base.specs.declared.lines.Macro.{Macro};
ghost use Rattle.meta_lexer.specs.declared.token.Token.{Token};
ghost use Rattle.meta_lexer.specs.Tokens.{tokens_of};
ghost use Rattle.macro_expressions.specs.declared.macros.Undefined.{Undefined};
ghost use Rattle.macro_expressions.specs.Macros.{replaced};
ghost use Rattle.fdf_words.specs.declared.words.Options.{Options};
ghost use Rattle.fdf_words.specs.Words.{options_of};
ghost use Rattle.fdf_volumes.specs.declared.inf_line.InfOptions.{InfOptions};
ghost use Rattle.fdf_volumes.specs.InfLines.{inf_parts};
ghost use Rattle.fdf_lines.specs.declared.rule_options.RuleOptions.{RuleOptions};
ghost use Rattle.fdf_lines.specs.Rules.{rule_parts};
ghost use Rattle.image_rebase.specs.declared.blocks.Block.{Block};
ghost use Rattle.image_rebase.specs.Blocks.{blocks_of, entries_in, entry_bytes};
ghost use Rattle.document_laws.specs.MacroUses.{IsReplaced};
ghost use Rattle.document_laws.specs.RelocationBlocks.{AreBlocks, AreWords};
ghost use Rattle.document_laws.specs.StatedOptions.{StatesFile, StatesInf, StatesRule};
ghost use Rattle.document_laws.specs.TokenPieces.{AreTokens};

/// A text whose macros are replaced is what its parts stand for, and nothing else is.
pub fn replaced_texts_are_of_parts()
    ensures found { (unknown : Undefined) (macros : List Macro) (text : List ℕ)
        → IsReplaced unknown macros text (replaced unknown macros text) }
    ensures only { (unknown : Undefined) (macros : List Macro) (text out : List ℕ)
        → IsReplaced unknown macros text out → out ≡ replaced unknown macros text }
{}

/// The blocks that are found in a directory of relocations stand one behind the other, and each
/// list of blocks that does so is found.
pub fn relocation_blocks_are_found()
    ensures found { (place : Place) (directory : List ℕ) (blocks : List Block)
        → blocks_of place directory ≡ Ok blocks → AreBlocks 0 directory blocks }
    ensures only { (place : Place) (directory : List ℕ) (blocks : List Block)
        → AreBlocks 0 directory blocks → blocks_of place directory ≡ Ok blocks }
{}

/// The entries of a block are the words of two bytes that its bytes have, and nothing else is.
pub fn relocation_entries_are_words()
    ensures found { (directory : List ℕ) (block : Block)
        → AreWords (entry_bytes directory block) (entries_in directory block) }
    ensures only { (directory : List ℕ) (block : Block) (words : List ℕ)
        → AreWords (entry_bytes directory block) words → entries_in directory block ≡ words }
{}

/// The tokens that are found in a text stand one behind the other with blanks between them, and
/// each list of tokens that does so is found.
pub fn tokens_are_found()
    ensures found { (text : List ℕ) (tokens : List Token) → tokens_of text ≡ Ok tokens
        → AreTokens 0 text tokens }
    ensures only { (text : List ℕ) (tokens : List Token) → AreTokens 0 text tokens
        → tokens_of text ≡ Ok tokens }
{}

/// The options of a module's statement that are found stand one behind the other, each at most
/// once, up to a text that is none. All options that do so are found.
pub fn module_options_are_found()
    ensures found { (text : List ℕ) (options : InfOptions) (rest : List ℕ)
        → inf_parts text ≡ Some (options, rest) → StatesInf text options rest }
    ensures only { (text : List ℕ) (options : InfOptions) (rest : List ℕ)
        → StatesInf text options rest → inf_parts text ≡ Some (options, rest) }
{}

/// The same of a file's options, which are all of their text.
pub fn file_options_are_found()
    ensures found { (text : List ℕ) (options : Options) → options_of text ≡ Some options
        → StatesFile text options }
    ensures only { (text : List ℕ) (options : Options) → StatesFile text options
        → options_of text ≡ Some options }
{}

/// The same of the options of a rule's section, of which none is wrong.
pub fn rule_options_are_found()
    ensures found { (text : List ℕ) (options : RuleOptions) (written rest : List ℕ)
        → rule_parts text ≡ (options, written, rest) → options.wrong ≡ false
        → StatesRule text options written rest }
    ensures only { (text : List ℕ) (options : RuleOptions) (written rest : List ℕ)
        → StatesRule text options written rest
        → (rule_parts text ≡ (options, written, rest)) × (options.wrong ≡ false) }
{}
