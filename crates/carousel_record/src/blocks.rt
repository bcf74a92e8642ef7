// The blocks of a module.
ghost use Rattle.std.specs.Prelude.{◌≡◌, ◌&&◌, ◌<◌, eqb, ltb};
ghost use Rattle.carousel_record.specs.Blocks.{blocks_of, block_length_of};

// How many there are.
pub fn blocks_of(block_size: u16, size: u32) -> usize
    ensures { (result ≡ blocks_of block_size size) × (result < 4295032832) }
{
    if block_size == 0 {
        return 0;
    }
    let bs = block_size as usize;
    (size as usize + (bs - 1)) / bs
}

// How many bytes one of them has.
fn block_length(block_size: u16, size: u32, block: usize) -> usize
    requires { block < blocks_of block_size size }
    ensures { result ≡ block_length_of block_size size block }
{
    let bs = block_size as usize;
    if block + 1 < blocks_of(block_size, size) {
        return bs;
    }
    size as usize - block * bs
}

// Whether there is a block with that number, and has that many bytes.
pub fn is_block(block_size: u16, size: u32, block: usize, len: usize) -> bool
    ensures { result ≡ (ltb block (blocks_of block_size size) && eqb len (block_length_of block_size size block)) }
{
    if blocks_of(block_size, size) <= block {
        return false;
    }
    len == block_length(block_size, size, block)
}
