// The table of the image: where each field begins, and how many bytes it has.
ghost use Rattle.std.specs.Prelude.{◌≡◌};
ghost use Rattle.image.specs.Layout.{place_as, place_of, offset_of, size_of};

// The places are constants beside an enum of the fields: the record is read at the constants (it is written from front to
// back, each field behind the one before it), and the enum is what `offset_of` and `size_of` are asked by, from which the C
// header and the page of the image are printed. `image[offset_of(Field::Latch)]` is no plainer than `image[fields::LATCH]`: a
// constant is below the array's length as it stands, the answer of a call is so by its contract alone.

// The bytes of an image.
pub const IMAGE: usize = 128;

pub const PART: usize = 0;

pub const N: usize = 1;

pub const BESIDE_MAKE: usize = 2;

pub const STATUS: usize = 4;

pub const AREA_PROTECTION: usize = 5;

pub const CONFIGURATION_1: usize = 6;

pub const CONFIGURATION_2: usize = 7;

pub const CONFIGURATION_3: usize = 8;

pub const CONFIGURATION_4: usize = 9;

pub const MODE_REGISTER: usize = 10;

pub const BUS_MODE: usize = 11;

pub const LATCH: usize = 12;

pub const ARMED: usize = 13;

pub const ASLEEP: usize = 14;

pub const TOGGLE: usize = 15;

pub const DEVICE_IDENTITY: usize = 16;

pub const UNIQUE_NUMBER: usize = 24;

pub const SERIAL_NUMBER: usize = 32;

pub const BESIDE_IDENTITIES: usize = 40;

pub const SELECTED: usize = 64;

pub const OPCODE: usize = 65;

pub const BESIDE_OPCODE: usize = 66;

pub const CLOCKS: usize = 68;

pub const ADDRESS: usize = 72;

pub const NUMBER: usize = 76;

pub const VALUE: usize = 80;

pub const BESIDE_VALUE: usize = 88;

// A field of the image. Those named `Beside..` are spare: all 0, where the record may grow.
#[derive(Clone, Copy)]
pub enum Field {
    Part,
    N,
    BesideMake,
    Status,
    AreaProtection,
    Configuration1,
    Configuration2,
    Configuration3,
    Configuration4,
    ModeRegister,
    BusMode,
    Latch,
    Armed,
    Asleep,
    Toggle,
    DeviceIdentity,
    UniqueNumber,
    SerialNumber,
    BesideIdentities,
    Selected,
    Opcode,
    BesideOpcode,
    Clocks,
    Address,
    Number,
    Value,
    BesideValue,
}

// Where a field begins, and how many bytes it has.
#[derive(Clone, Copy)]
pub struct Place {
    pub offset: usize,
    pub size: usize,
}

fn stretch(offset: usize, size: usize) -> Place
    ensures { result ≡ place_as offset size }
{
    Place { offset, size }
}

// The table.
pub fn place_of(f: Field) -> Place
    ensures { result ≡ place_of f }
{
    match f {
        Field::Part => stretch(PART, 1),
        Field::N => stretch(N, 1),
        Field::BesideMake => stretch(BESIDE_MAKE, 2),
        Field::Status => stretch(STATUS, 1),
        Field::AreaProtection => stretch(AREA_PROTECTION, 1),
        Field::Configuration1 => stretch(CONFIGURATION_1, 1),
        Field::Configuration2 => stretch(CONFIGURATION_2, 1),
        Field::Configuration3 => stretch(CONFIGURATION_3, 1),
        Field::Configuration4 => stretch(CONFIGURATION_4, 1),
        Field::ModeRegister => stretch(MODE_REGISTER, 1),
        Field::BusMode => stretch(BUS_MODE, 1),
        Field::Latch => stretch(LATCH, 1),
        Field::Armed => stretch(ARMED, 1),
        Field::Asleep => stretch(ASLEEP, 1),
        Field::Toggle => stretch(TOGGLE, 1),
        Field::DeviceIdentity => stretch(DEVICE_IDENTITY, 8),
        Field::UniqueNumber => stretch(UNIQUE_NUMBER, 8),
        Field::SerialNumber => stretch(SERIAL_NUMBER, 8),
        Field::BesideIdentities => stretch(BESIDE_IDENTITIES, 24),
        Field::Selected => stretch(SELECTED, 1),
        Field::Opcode => stretch(OPCODE, 1),
        Field::BesideOpcode => stretch(BESIDE_OPCODE, 2),
        Field::Clocks => stretch(CLOCKS, 4),
        Field::Address => stretch(ADDRESS, 4),
        Field::Number => stretch(NUMBER, 4),
        Field::Value => stretch(VALUE, 8),
        Field::BesideValue => stretch(BESIDE_VALUE, 40),
    }
}

// Where a field begins.
pub fn offset_of(f: Field) -> usize
    ensures { result ≡ offset_of f }
{
    place_of(f).offset
}

// How many bytes it has.
pub fn size_of(f: Field) -> usize
    ensures { result ≡ size_of f }
{
    place_of(f).size
}
