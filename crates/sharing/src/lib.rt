//! How a quantity of contracts is shared among the rows of a price level.
#![tactic(auto)]

pub mod level;
mod parts;
mod ranks;
mod rows;
pub mod rule;
pub mod size;
mod sizes;
pub mod time;

pub use level::{Holding, LEVEL_ROWS, Level, PushError};
pub use rule::SharingRule;
pub use size::SizeProRata;
pub use time::TimePriority;

#[cfg(test)]
mod tests {
    use crate::level::{Holding, LEVEL_ROWS, Level, PushError};
    use crate::rule::SharingRule;
    use crate::size::SizeProRata;
    use crate::time::TimePriority;
    use interest::Class;
    use std::test::Fail;

    fn row(class: Class, size: u32) -> Holding {
        Holding { class, size }
    }

    // A customer of 4 contracts, and others of 7, 5 and 3.
    fn mixed() -> Level {
        let mut level = Level::new();
        let _ = level.push(row(Class::Fixed, 4));
        let _ = level.push(row(Class::Other, 7));
        let _ = level.push(row(Class::Other, 5));
        let _ = level.push(row(Class::Other, 3));
        level
    }

    #[test]
    fn time_serves_rows_in_order(rt: HostRuntime) {
        assert_eq!(rt;
            TimePriority.share(10, &mixed()).as_slice(),
            [4, 6, 0, 0].as_slice()
        );
    }

    #[test]
    fn size_serves_customers_then_parts(rt: HostRuntime) {
        assert_eq!(rt;
            SizeProRata.share(10, &mixed()).as_slice(),
            [4, 3, 2, 1].as_slice()
        );
    }

    // 5 × 5 / 10 rounds up to 3.
    #[test]
    fn earlier_of_equals_is_first(rt: HostRuntime) {
        let mut level = Level::new();
        let _ = level.push(row(Class::Other, 5));
        let _ = level.push(row(Class::Other, 5));
        assert_eq!(rt; SizeProRata.share(5, &level).as_slice(), [3, 2].as_slice());
    }

    #[test]
    fn a_level_refuses_what_does_not_fit(rt: HostRuntime) -> Result<(), Fail> {
        let mut level = Level::new();
        assert_eq!(rt;
            level.push(row(Class::Other, 0)),
            Err(PushError::SizeOutOfBounds)
        );
        assert_eq!(rt;
            level.push(row(Class::Other, 1_000_001)),
            Err(PushError::SizeOutOfBounds)
        );
        for _ in 0..LEVEL_ROWS {
            level.push(row(Class::Other, 1_000_000))?;
        }
        assert_eq!(rt; level.push(row(Class::Other, 1)), Err(PushError::LevelFull));
        Ok(())
    }
}
