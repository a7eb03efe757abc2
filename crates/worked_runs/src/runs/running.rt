//! A unit and two cards in memory, and traces that are recorded on them.
ghost use Rattle.std.specs.Prelude.{IfOk, OnOk};
ghost use Rattle.tach_media.specs.MemMedium.{memory_state};
ghost use Rattle.unit_model.specs.Image.{IsUnit};

use crate::recording::{Recorded, record};
use crate::runs::ran::Ran;
use card_commands::SimCard;
use minute_model::Rule;
use run_model::Device;
use std::alloc::{AllocError, Global};
use std::test::Fail;
use tach_media::{MemMedium, Memory, Stop};
use worked_media::{
    NUMBER_A, NUMBER_B, Room, T0, card_of_zeros, card_tells, image_of, new_card, new_image,
    unit_tells, unit_with, upgraded_image,
};

/// The room of each device's log.
const ROOM: Room = Room {
    writes: 20000,
    bytes: 400000,
};

/// The limit of the vehicle, in km/h.
const LIMIT: u8 = 90;

/// A unit and two cards.
#[derive(Drop)]
pub struct Devices {
    pub unit: MemMedium,
    pub card_a: SimCard<MemMedium>,
    pub card_b: SimCard<MemMedium>,
}

/// The stops of a unit and two cards.
#[derive(Drop)]
pub struct Stops {
    pub unit: Vec<Stop>,
    pub card_a: Vec<Stop>,
    pub card_b: Vec<Stop>,
}

impl Stops {
    /// None.
    pub fn none(alloc: Global) -> Stops {
        Stops {
            unit: Vec::new(alloc),
            card_a: Vec::new(alloc),
            card_b: Vec::new(alloc),
        }
    }

    /// One stop, of a call of this device.
    pub fn one(alloc: Global, device: Device, stop: Stop) -> Result<Stops, AllocError> {
        let mut stops = Stops::none(alloc);
        match device {
            Device::Unit => stops.unit.push(stop)?,
            Device::CardA => stops.card_a.push(stop)?,
            Device::CardB => stops.card_b.push(stop)?,
        }
        Ok(stops)
    }
}

/// The image of a new unit with this rule of minutes.
fn image_by(alloc: Global, rule: Rule) -> Result<Vec<u8>, AllocError> {
    match rule {
        Rule::Original => new_image(alloc, LIMIT),
        Rule::Amended => upgraded_image(alloc, LIMIT),
    }
}

/// New devices, whose calls stop so.
pub fn new_devices(alloc: Global, stops: Stops) -> Result<Devices, Memory>
    ensures { IfOk result (λ d. IsUnit (memory_state d.unit.log d.unit.counts)) }
{
    new_devices_by(alloc, Rule::Original, stops)
}

/// The same of a unit with this rule of minutes.
pub fn new_devices_by(alloc: Global, rule: Rule, stops: Stops) -> Result<Devices, Memory>
    ensures { IfOk result (λ d. IsUnit (memory_state d.unit.log d.unit.counts)) }
{
    let image = image_by(alloc, rule)?;
    Ok(Devices {
        unit: unit_with(alloc, image, ROOM, stops.unit)?,
        card_a: new_card(alloc, NUMBER_A, ROOM, stops.card_a)?,
        card_b: new_card(alloc, NUMBER_B, ROOM, stops.card_b)?,
    })
}

impl Devices {
    /// Records a trace.
    pub fn record(&mut self, alloc: Global, text: &[u8]) -> Result<Recorded, Fail>
        requires { IsUnit (memory_state self.old.unit.log self.old.unit.counts) }
        ensures { IsUnit (memory_state self.new.unit.log self.new.unit.counts) }
    {
        record(
            alloc,
            text,
            &mut self.unit,
            &mut self.card_a,
            &mut self.card_b,
        )
    }

    /// Records a trace, and tells the numbers of that.
    pub fn run(&mut self, alloc: Global, text: &[u8]) -> Result<Ran, Fail>
        requires { IsUnit (memory_state self.old.unit.log self.old.unit.counts) }
        ensures { IsUnit (memory_state self.new.unit.log self.new.unit.counts) }
    {
        let recorded = self.record(alloc, text)?;
        Ok(Ran::of(&recorded))
    }

    /// Records a trace that is to be recorded.
    pub fn run_whole(&mut self, alloc: Global, text: &[u8]) -> Result<(), Fail>
        requires { IsUnit (memory_state self.old.unit.log self.old.unit.counts) }
        ensures { IsUnit (memory_state self.new.unit.log self.new.unit.counts) }
    {
        if self.record(alloc, text)?.ended.is_ok() {
            return Ok(());
        }
        Err(Fail::from("a run that is refused"))
    }

    /// How many calls of each there were.
    pub fn calls(&self) -> Calls {
        Calls {
            unit: self.unit.calls(),
            card_a: self.card_a.medium().calls(),
            card_b: self.card_b.medium().calls(),
        }
    }

    /// The image of the unit.
    pub fn unit_image(&mut self, alloc: Global) -> Result<Vec<u8>, Fail> {
        Ok(image_of(alloc, &mut self.unit)?)
    }

    /// Another unit with the image of this one, of which no call stops.
    pub fn renew_unit(&mut self, alloc: Global) -> Result<(), Fail>
        ensures { OnOk result (IsUnit (memory_state self.new.unit.log self.new.unit.counts)) }
    {
        let image = image_of(alloc, &mut self.unit)?;
        self.unit = unit_with(alloc, image, ROOM, Vec::new(alloc))?;
        Ok(())
    }

    /// A first card of zeros.
    pub fn take_zeros(&mut self, alloc: Global) -> Result<(), Fail>
        requires { IsUnit (memory_state self.old.unit.log self.old.unit.counts) }
        ensures { IsUnit (memory_state self.new.unit.log self.new.unit.counts) }
    {
        self.card_a = card_of_zeros(alloc, ROOM)?;
        Ok(())
    }

    /// Whether the unit tells this last-kept minute, and these words of the first day.
    pub fn unit_tells(&mut self, alloc: Global, kept: u32, words: &[u16]) -> Result<bool, Fail> {
        Ok(unit_tells(alloc, &mut self.unit, T0, kept, words)?)
    }

    /// Whether the first card has these words.
    pub fn card_tells(&mut self, alloc: Global, words: &[u16]) -> Result<bool, Fail> {
        Ok(card_tells(alloc, &mut self.card_a, words)?)
    }
}

/// How many calls of each device there were.
#[derive(Clone, Copy)]
pub struct Calls {
    pub unit: u64,
    pub card_a: u64,
    pub card_b: u64,
}

impl Calls {
    /// Those of this device.
    pub fn of(&self, device: Device) -> u64 {
        match device {
            Device::Unit => self.unit,
            Device::CardA => self.card_a,
            Device::CardB => self.card_b,
        }
    }
}

/// A run on new devices whose calls stop so.
pub fn run(alloc: Global, text: &[u8], stops: Stops) -> Result<Ran, Fail> {
    let mut d = new_devices(alloc, stops)?;
    d.run(alloc, text)
}

/// How many calls a run makes of a unit with this rule of minutes, where none is stopped.
pub fn calls_by(alloc: Global, rule: Rule, text: &[u8]) -> Result<Calls, Fail> {
    let mut d = new_devices_by(alloc, rule, Stops::none(alloc))?;
    d.run_whole(alloc, text)?;
    Ok(d.calls())
}

/// How many calls a run makes where these are stopped.
pub fn calls_with(alloc: Global, text: &[u8], stops: Stops) -> Result<Calls, Fail> {
    let mut d = new_devices(alloc, stops)?;
    d.run_whole(alloc, text)?;
    Ok(d.calls())
}

/// How many it makes where none is stopped.
pub fn calls_of(alloc: Global, text: &[u8]) -> Result<Calls, Fail> {
    calls_with(alloc, text, Stops::none(alloc))
}
