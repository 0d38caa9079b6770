// Temperatures that an image holds, with the addresses of their two bytes: `temperature chip C at HH LL bytes HHLL steps N`.
ghost use Rattle.std.specs.Prelude.{◌≡◌, ◌<◌};
ghost use Rattle.pages.specs.Nct7802y as nct7802y;
ghost use Rattle.pages.specs.Nct80 as nct80;
ghost use Rattle.figures_readings.specs.Sensors.{sensor_of};

use crate::coding::{self, Coding};
use figures_printing::{Byte, FILL};
use std::io::{self, Stdout};
use watch::{Behaviour, Watch};

// Where a sensor's temperature stands.
#[derive(Clone, Copy)]
struct Sensor {
    width: u8,
    high: u8,
    low: u8,
}

// RTD1, RTD2 and RTD3 of chip 1, counted from 0.
fn remote_diode(k: usize) -> Sensor
    requires { k < 3 }
    ensures { result ≡ sensor_of nct7802y.temperature k }
{
    let high = [0x01u8, 0x02, 0x03];
    Sensor {
        width: 11,
        high: high[k],
        low: 0x05,
    }
}

// The one sensor of chip 3.
fn on_chip() -> Sensor
    ensures { result ≡ sensor_of nct80.temperature 0 }
{
    Sensor {
        width: 12,
        high: 0x27,
        low: 0x06,
    }
}

// Both bytes are read from the image, with a watch beside it. No sensor's register is a status register: the reads change neither.
fn held(out: Stdout, chip: u8, image: &mut [u8], sensor: Sensor) -> io::Result<()> {
    print!(out;
        "temperature chip {chip} at {} {}",
        Byte(sensor.high),
        Byte(sensor.low)
    )?;
    let watch = Watch::new(Behaviour::Default);
    let Ok((high, watch)) = states::read(chip, image, sensor.high, watch) else {
        return Ok(());
    };
    let Ok((low, _)) = states::read(chip, image, sensor.low, watch) else {
        return Ok(());
    };
    coding::read(
        out,
        Coding::Width(sensor.width),
        u16::from_be_bytes([high, low]),
    )
}

// Every byte but theirs is 5Ah, also that of LTD at 04h, and would make another temperature.
fn remote_diodes(out: Stdout, highs: [u8; 3], low: u8) -> io::Result<()> {
    let mut image = [FILL; 256];
    image[0x01..0x04].copy_from_slice(&highs);
    image[0x05] = low;
    for k in 0..3 {
        held(out, 1, &mut image, remote_diode(k))?;
    }
    Ok(())
}

fn nct80(out: Stdout, high: u8, low: u8) -> io::Result<()> {
    let mut image = [FILL; 256];
    image[0x27] = high;
    image[0x06] = low;
    held(out, 3, &mut image, on_chip())
}

// The low bits that do not count are ones: E7A0h of the rules paper and 1.125 and -127.875 degrees of the data sheet; 7D00h, C900h, FFF0h.
pub fn print_all(out: Stdout) -> io::Result<()> {
    remote_diodes(out, [0xE7, 0x19, 0x80], 0xBF)?;
    remote_diodes(out, [0x7F, 0x01, 0x80], 0x3F)?;
    nct80(out, 0x7D, 0x0F)?;
    nct80(out, 0xC9, 0x0F)?;
    nct80(out, 0xFF, 0xFF)
}
