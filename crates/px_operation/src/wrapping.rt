//! Numbers in the integer types, in which they wrap.
ghost use Rattle.std.specs.Prelude.{◌≡◌};
ghost use Rattle.px_value.specs.KindView.{kind_of};
ghost use Rattle.px_operation.specs.Wrap.{low_bits, wrapped_in};

use px_value::DataType;

/// What is left of a number in the bits of an integer type; the number itself for every other type.
pub fn wrap(dtype: &DataType, z: i128) -> i128
    ensures { result ≡ wrapped_in (kind_of dtype.now) z }
{
    match dtype {
        DataType::Int8 => low_u8(z).cast_signed() as i128,
        DataType::Int16 => low_u16(z).cast_signed() as i128,
        DataType::Int32 => low_u32(z).cast_signed() as i128,
        DataType::Int64 => low_u64(z).cast_signed() as i128,
        DataType::UInt8 => low_u8(z) as i128,
        DataType::UInt16 => low_u16(z) as i128,
        DataType::UInt32 => low_u32(z) as i128,
        DataType::UInt64 => low_u64(z) as i128,
        _ => z,
    }
}

fn low_u8(z: i128) -> u8
    ensures { result ≡ low_bits 8 z }
{
    z.rem_euclid(1 << 8) as u8
}

fn low_u16(z: i128) -> u16
    ensures { result ≡ low_bits 16 z }
{
    z.rem_euclid(1 << 16) as u16
}

fn low_u32(z: i128) -> u32
    ensures { result ≡ low_bits 32 z }
{
    z.rem_euclid(1 << 32) as u32
}

fn low_u64(z: i128) -> u64
    ensures { result ≡ low_bits 64 z }
{
    z.rem_euclid(1 << 64) as u64
}
