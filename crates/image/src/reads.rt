// From an image to the record that it stands for: its length is in the type.
ghost use Rattle.std.specs.Prelude.{◌≡◌, ◌+◌, ◌≤◌, length, take, drop};
ghost use Rattle.image.specs.Image.{eight_from, registers_at, volatile_at, identities_at, underway_at, record_of};

use crate::fields;
use crate::fields::IMAGE;
use buffers::number_at;
use record::{Device, Identities, Make, Registers, Underway, Volatile};
use units::Clocks;

// So many bytes from a place on.
fn bytes_at<const N: usize>(image: &[u8], at: usize) -> [u8; N]
    requires { at + N ≤ length image.now }
    ensures { result ≡ take N (drop at image.now) }
{
    let mut bytes = [0; N];
    bytes.copy_from_slice(&image[at..at + N]);
    bytes
}

// Eight bytes.
pub fn eight_at(image: &[u8], at: usize) -> [u8; 8]
    requires { at + 8 ≤ length image.now }
    ensures { result ≡ eight_from at image.now }
{
    bytes_at(image, at)
}

fn registers_at(image: &[u8; IMAGE]) -> Registers
    ensures { result ≡ registers_at image.now }
{
    Registers {
        status: image[fields::STATUS],
        protection: image[fields::AREA_PROTECTION],
        cr1: image[fields::CONFIGURATION_1],
        cr2: image[fields::CONFIGURATION_2],
        cr3: image[fields::CONFIGURATION_3],
        cr4: image[fields::CONFIGURATION_4],
        mr0: image[fields::MODE_REGISTER],
    }
}

fn volatile_at(image: &[u8; IMAGE]) -> Volatile
    ensures { result ≡ volatile_at image.now }
{
    Volatile {
        mode: image[fields::BUS_MODE],
        latch: image[fields::LATCH] == 1,
        armed: image[fields::ARMED] == 1,
        asleep: image[fields::ASLEEP] == 1,
        toggle: image[fields::TOGGLE] == 1,
    }
}

fn identities_at(image: &[u8; IMAGE]) -> Identities
    ensures { result ≡ identities_at image.now }
{
    Identities {
        device: eight_at(image, fields::DEVICE_IDENTITY),
        unique: eight_at(image, fields::UNIQUE_NUMBER),
        serial: eight_at(image, fields::SERIAL_NUMBER),
    }
}

fn underway_at(image: &[u8; IMAGE]) -> Underway
    ensures { result ≡ underway_at image.now }
{
    Underway {
        selected: image[fields::SELECTED] == 1,
        clocks: Clocks::stated(number_at(image, fields::CLOCKS) as usize),
        opcode: image[fields::OPCODE],
        address: number_at(image, fields::ADDRESS),
        number: number_at(image, fields::NUMBER),
        value: eight_at(image, fields::VALUE),
    }
}

// The record, whatever it is worth.
#[tactic(auto, unfolding(crate::specs::Image::record_of))]
pub fn record_of(image: &[u8; IMAGE]) -> Device
    ensures { result ≡ record_of image.now }
{
    Device {
        make: Make {
            part: image[fields::PART],
            n: image[fields::N],
        },
        registers: registers_at(image),
        volatile: volatile_at(image),
        identity: identities_at(image),
        underway: underway_at(image),
    }
}
