//! Laws: what the two buffers hold at most.
ghost use Rattle.std.specs.Prelude.{◌≡◌};
ghost use Rattle.ops_io.specs.declared.input.TheConstants.{READ_SIZE};
ghost use Rattle.ops_io.specs.declared.out.TheConstants.{BUFFER_SIZE};

/// The buffer of the output holds 8,192 bytes at most, and that of the input 4,096.
pub fn buffer_sizes()
    ensures output { BUFFER_SIZE ≡ 8192 }
    ensures input { READ_SIZE ≡ 4096 }
{}
