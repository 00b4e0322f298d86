ghost use Rattle.std.specs.Prelude.{◌≡◌, ◌&&◌, ◌||◌};
ghost use Rattle.orders.specs.Modes.{admits, needs_reference, values_fit, speed_fits, in_reach, uses_speed, uses_double, goes_one_way};

use states::{Command, Mode, Order, REACH};

pub(crate) fn admits(mode: Mode, command: Command) -> bool
    ensures { result ≡ admits mode command }
{
    match mode {
        Mode::Jog(_) | Mode::Relative => matches!(
            command,
            Command::Forward | Command::Backward | Command::Stop
        ),
        Mode::Position => matches!(command, Command::Start | Command::Stop),
        Mode::Program(_) => matches!(command, Command::Start | Command::Stop | Command::TakeOver),
        _ => command == Command::Start,
    }
}

pub(crate) fn needs_reference(mode: Mode) -> bool
    ensures { result ≡ needs_reference mode }
{
    matches!(mode, Mode::Position | Mode::Relative | Mode::Program(_))
}

fn uses_speed(mode: Mode) -> bool
    ensures { result ≡ uses_speed mode }
{
    matches!(mode, Mode::Jog(_) | Mode::Position | Mode::Relative)
}

fn uses_double(mode: Mode) -> bool
    ensures { result ≡ uses_double mode }
{
    matches!(
        mode,
        Mode::Position | Mode::Relative | Mode::OffsetTo | Mode::OffsetBy | Mode::ToolTo
    )
}

// A distance has its direction in the command.
fn goes_one_way(mode: Mode) -> bool
    ensures { result ≡ goes_one_way mode }
{
    mode == Mode::Relative
}

// Whether the speed and the double word, where this mode uses them, are in range.
pub(crate) fn values_fit(mode: Mode, order: Order) -> bool
    ensures { result ≡ values_fit mode order }
{
    let speed = !uses_speed(mode) || speed_fits(order);
    let double = !uses_double(mode) || double_fits(order);
    let way = !goes_one_way(mode) || 0 <= order.double;
    speed && double && way
}

fn speed_fits(order: Order) -> bool
    ensures { result ≡ speed_fits order.word }
{
    (1..=65_000).contains(&order.word)
}

fn double_fits(order: Order) -> bool
    ensures { result ≡ in_reach order.double }
{
    (-REACH..=REACH).contains(&order.double)
}
