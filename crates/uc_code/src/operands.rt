// The operands of an instruction as the listing shows them.

ghost use Rattle.std.specs.Prelude.{◌≡◌, ◌++◌, OnOk};
ghost use Rattle.std.specs.Fmt.{signed_decimal};
ghost use Rattle.std.specs.Prelude.{decimal, codes};
ghost use Rattle.uc_code.specs.Listing.{spaced};
ghost use Rattle.uc_code.specs.Operands.{numbers_of};

use itoa::Buffer;
use std::alloc::AllocError;

/// No operand, a constant, or one, two or three numbers.
#[derive(Clone, Copy)]
pub(crate) enum Operands {
    Nothing,
    Constant(i64),
    One(u64),
    Two(u64, u64),
    Three(u64, u64, u64),
}

impl Operands {
    // Appends each operand behind a space.
    pub(crate) fn put(self, text: &mut Vec<u8>) -> Result<(), AllocError>
        ensures { OnOk result (text.new.items ≡ text.old.items ++ spaced (numbers_of self)) }
    {
        match self {
            Operands::Nothing => Ok(()),
            Operands::Constant(number) => {
                put_constant(text, number)?;
                Ok(())
            }
            Operands::One(number) => {
                put_operand(text, number)?;
                Ok(())
            }
            Operands::Two(first, second) => {
                put_operand(text, first)?;
                put_operand(text, second)?;
                Ok(())
            }
            Operands::Three(first, second, third) => {
                put_operand(text, first)?;
                put_operand(text, second)?;
                put_operand(text, third)?;
                Ok(())
            }
        }
    }
}

// Appends a space and a constant.
fn put_constant(text: &mut Vec<u8>, number: i64) -> Result<(), AllocError>
    ensures { OnOk result (text.new.items ≡ text.old.items ++ codes " " ++ signed_decimal number) }
{
    let mut buffer = Buffer::new();
    text.extend_from_slice(b" ")?;
    text.extend_from_slice(buffer.format(number).as_bytes())?;
    Ok(())
}

/// Appends a space and a number.
pub(crate) fn put_operand(text: &mut Vec<u8>, number: u64) -> Result<(), AllocError>
    ensures { OnOk result (text.new.items ≡ text.old.items ++ codes " " ++ decimal number) }
{
    text.extend_from_slice(b" ")?;
    put_number(text, number)?;
    Ok(())
}

/// Appends a number.
pub(crate) fn put_number(text: &mut Vec<u8>, number: u64) -> Result<(), AllocError>
    ensures { OnOk result (text.new.items ≡ text.old.items ++ decimal number) }
{
    let mut buffer = Buffer::new();
    text.extend_from_slice(buffer.format(number).as_bytes())?;
    Ok(())
}
