//! What a work over files prints: a line `NAME.rSIZE VALUE UNIT` for each figure.
use crate::files::of_device;
use crate::host::Host;
use shore_types::Fault;
use std::io;

/// A thousandth of a unit is the least that is told.
#[derive(Clone, Copy)]
pub struct Figure {
    // What was measured.
    name: &'static str,
    // How much, in thousandths of the unit.
    thousandths: u64,
    // The unit.
    unit: &'static str,
}

impl Figure {
    /// So many whole units.
    pub fn whole(name: &'static str, count: u64, unit: &'static str) -> Figure {
        Figure {
            name,
            thousandths: count.saturating_mul(1_000),
            unit,
        }
    }

    /// A number over another, times so many; over none it is 0.
    pub fn ratio(
        name: &'static str,
        part: u64,
        whole: u64,
        times: u64,
        unit: &'static str,
    ) -> Figure {
        let thousandths = u128::from(part).saturating_mul(u128::from(times))
            / u128::from(whole.max(1));
        Figure {
            name,
            thousandths: u64::try_from(thousandths).unwrap_or(u64::MAX),
            unit,
        }
    }

    fn print(&self, rt: &HostRuntime, size: usize) -> io::Result<()> {
        let (name, unit) = (self.name, self.unit);
        let (whole, rest) = (self.thousandths / 1_000, self.thousandths % 1_000);
        println!(rt; "{name}.r{size} {whole}.{rest:03} {unit}")
    }
}

/// Prints all figures of a work on records of a size.
pub fn tell(host: &Host, size: usize, figures: &[Figure]) -> Result<(), Fault> {
    for figure in figures {
        of_device(figure.print(host.rt, size))?;
    }
    Ok(())
}
