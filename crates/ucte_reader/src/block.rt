//! The blocks of a file.

ghost use Rattle.std.specs.Prelude.{◌≡◌, [], ◌∷◌};
ghost use Rattle.ucte_reader.specs.Blocks.{is_in_nodes, block_of};

/// The two characters of a zone.
#[derive(Clone, Copy, Debug)]
pub struct ZoneCode {
    pub first: char,
    pub second: char,
}

/// The two forms of a line that describes a branch.
#[derive(Clone, Copy, Debug)]
pub enum Form {
    Line,
    Transformer,
}

/// What the last heading opened.
#[derive(Clone, Copy, Debug)]
pub enum Block {
    /// No block.
    Outside,
    /// A block whose lines say nothing here.
    Skipped,
    /// The block of nodes, before its first zone.
    Nodes,
    Zone(ZoneCode),
    Branches(Form),
    Regulations,
}

fn is_within_nodes(block: Block) -> bool
    ensures { result ≡ is_in_nodes block }
{
    matches!(block, Block::Nodes | Block::Zone(_))
}

fn opened_by_letter(letter: char) -> Option<Block>
    ensures { result ≡ block_of Block.Outside (letter ∷ []) }
{
    if letter == 'C' || letter == 'E' {
        Some(Block::Skipped)
    } else if letter == 'N' {
        Some(Block::Nodes)
    } else if letter == 'L' {
        Some(Block::Branches(Form::Line))
    } else if letter == 'T' {
        Some(Block::Branches(Form::Transformer))
    } else if letter == 'R' {
        Some(Block::Regulations)
    } else {
        None
    }
}

/// The block that a key opens.
pub fn opened(block: Block, key: &[char]) -> Option<Block>
    ensures { result ≡ block_of block key.now }
{
    match key {
        [letter] => opened_by_letter(*letter),
        ['T', 'T'] => Some(Block::Skipped),
        ['Z', first, second] if is_within_nodes(block) => Some(Block::Zone(ZoneCode {
            first: *first,
            second: *second,
        })),
        _ => None,
    }
}
