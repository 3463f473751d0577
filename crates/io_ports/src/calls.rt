// The calls of an object in memory are counted, and those of listed numbers fail.
ghost use Rattle.std.specs.Prelude.{◌≡◌, ◌↔◌, IsTrue, Contains};
ghost use Rattle.io_ports.specs.Counts.{next_count};

#[derive(Drop)]
pub struct Calls {
    made: u64,
    failing: Vec<u64>,
}

impl Calls {
    pub fn new(failing: Vec<u64>) -> Calls
        ensures made { result.made ≡ 0 }
        ensures failing { result.failing.items ≡ failing.items }
    {
        Calls { made: 0, failing }
    }

    /// Counts one more call, and says whether its number is listed.
    pub fn next_fails(&mut self) -> bool
        ensures made { self.new.made ≡ next_count self.old.made }
        ensures failing { self.new.failing.items ≡ self.old.failing.items }
        ensures listed { IsTrue result ↔ Contains self.old.failing.items (next_count self.old.made) }
    {
        self.made = self.made.saturating_add(1);
        self.failing.contains(&self.made)
    }
}
