ghost use Rattle.std.specs.Prelude.{◌≡◌, ◌≤◌, ◌<◌, ◌-◌, ◌+◌, if◌then◌else◌, ◌==◌};
ghost use Rattle.plan_change.specs.Heads.{head_of, aspect_of_head, head_later, head_kept};

use aspect_player::Aspect;
use sig_base::GroupTimes;

/// A group's run of green that started last or that red-amber has announced, and its plan's next
/// start: all in seconds from now.
#[derive(Clone, Copy, Debug, PartialEq, Eq)]
pub struct Head {
    /// To the start of the run; 0 once it has started.
    pub start: u32,
    /// To the end of the amber after the run; 0 once it is over.
    pub over: u32,
    /// To the plan's next start.
    pub next: u32,
}

/// The record at the second 0 of a plan whose greens, with the ambers after them, last so long.
pub fn first_head(start: u32, cycle: u32, lasts: u32) -> Head
    requires start { start < cycle }
    requires cycle { cycle ≤ 300 }
    requires lasts { lasts ≤ 1000 }
    ensures { result ≡ head_of 0 ((if start == 0 then cycle else start) + lasts - cycle)
        (if start == 0 then cycle else start) }
{
    let next = if start == 0 { cycle } else { start };
    Head {
        start: 0,
        over: (next + lasts).saturating_sub(cycle),
        next,
    }
}

/// The record a second later.
pub fn later_head(head: Head, cycle: u32, lasts: u32) -> Head
    requires { 1 ≤ head.next }
    ensures { result ≡ head_later head cycle lasts }
{
    if head.next == 1 {
        Head {
            start: 0,
            over: lasts,
            next: cycle,
        }
    } else {
        Head {
            start: head.start.saturating_sub(1),
            over: head.over.saturating_sub(1),
            next: head.next - 1,
        }
    }
}

/// The record that a request keeps: an announced green becomes its run.
pub fn kept_head(head: Head, red_amber: u32, lasts: u32) -> Head
    requires red_amber { red_amber ≤ 10 }
    requires lasts { lasts ≤ 1000 }
    ensures { result ≡ head_kept head red_amber lasts }
{
    if head.next <= red_amber {
        Head {
            start: head.next,
            over: head.next + lasts,
            next: head.next,
        }
    } else {
        head
    }
}

/// The aspect that the record tells.
pub fn shown(head: &Head, times: &GroupTimes) -> Aspect
    ensures { result ≡ aspect_of_head head.now times.now }
{
    if head.start == 0 && head.over > times.amber {
        Aspect::Green
    } else if head.start == 0 && head.over > 0 {
        Aspect::Amber
    } else if head.start > 0 || head.next <= times.red_amber {
        Aspect::RedAmber
    } else {
        Aspect::Red
    }
}
