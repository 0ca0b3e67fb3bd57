// The ids of one size, as a queue that is linked through the table of next ids.

ghost use Rattle.std.specs.Prelude.{◌≡◌, ◌+◌, ◌-◌, ◌<◌, ◌^◌};
ghost use Rattle.frontier_core.specs.Chain.{longer, shorter, end_before};

/// The first id, the last one, and how many there are; of an empty queue only the number counts.
#[derive(Clone, Copy)]
pub struct Queue {
    pub first: u32,
    pub last: u32,
    pub count: u32,
}

impl Queue {
    /// The queue with one id more at its end.
    pub fn longer(self, id: u32) -> Queue
        requires { self.count + 1 < 2 ^ 32 }
        ensures { result ≡ longer self id }
    {
        Queue {
            first: if self.count == 0 { id } else { self.first },
            last: id,
            count: self.count + 1,
        }
    }

    /// The queue without its first id, where `second` comes after it.
    pub fn shorter(self, second: u32) -> Queue
        requires { 0 < self.count }
        ensures { result ≡ shorter self second }
    {
        Queue {
            first: second,
            last: self.last,
            count: self.count - 1,
        }
    }

    /// The last id, after which `id` is put; if there is none, `id` itself.
    pub fn end_before(self, id: u32) -> u32
        ensures { result ≡ end_before self id }
    {
        if self.count == 0 { id } else { self.last }
    }
}
