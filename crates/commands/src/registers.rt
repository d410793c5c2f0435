// Registers: how many bytes each has, and where 65h finds it.
ghost use Rattle.std.specs.Prelude.{◌≡◌};
ghost use Rattle.basis.specs.Rows.{look};
ghost use Rattle.commands.specs.Registers.{bytes_of, mram_map, mapped_of};
ghost use Rattle.parts.specs.declared.Part.TheVariants.{M32};

use kinds::Register;
use parts::Part;
use units::Bytes;

// Bytes of the registers, in the order in which `Register` has them. A table, as document 01 asks.
const SIZES: [usize; 12] = [1, 1, 1, 1, 1, 1, 4, 4, 8, 8, 1, 8];

// The bytes of a register.
pub fn size_of(r: Register) -> Bytes
    ensures { result ≡ bytes_of r }
{
    Bytes::stated(SIZES[r as usize])
}

// The register that 65h finds at an address of the part's register map.
#[tactic(auto, unfolding(crate::specs::Registers::mapped_of))]
pub fn register_at(part: Part, address: u32) -> Option<Register>
    ensures { result ≡ mapped_of part address }
{
    match part {
        Part::M => register_of_mram(address),
        Part::P => None,
        Part::M32 => register_of_m32(address),
    }
}

// What is in the map of every part of the MRAM.
fn register_of_mram(address: u32) -> Option<Register>
    ensures { result ≡ look None mram_map address }
{
    match address {
        0x00 => Some(Register::Status),
        0x02 => Some(Register::Configuration1),
        0x03 => Some(Register::Configuration2),
        0x04 => Some(Register::Configuration3),
        0x05 => Some(Register::Configuration4),
        0x30 => Some(Register::Identity),
        0x40 => Some(Register::Unique),
        _ => None,
    }
}

// Part M32: the serial number, and otherwise what every part has.
#[tactic(auto, unfolding(crate::specs::Registers::mapped_of))]
fn register_of_m32(address: u32) -> Option<Register>
    ensures { result ≡ mapped_of M32 address }
{
    match address {
        0x80 => Some(Register::Serial),
        _ => register_of_mram(address),
    }
}
