// The bytes of the requests of the groups: a struct's, or those of a run's array.
ghost use Rattle.std.specs.Prelude.{◌≡◌};
ghost use Rattle.planning.specs.Merges.{AskTold};

use crate::planning::Planning;
use candidates::GROUPS;
use nodes::opened::Opened;
use sizes::request::request_size;

impl Planning<'_> {
    /// The requests of the groups.
    // An array beside the groups: it is filled when the groups are all there, and read by their numbers in the innermost loop.
    // By `as`: no request takes more than 1,000 bytes.
    pub(crate) fn fill_asks(&self, catalog: &[u8], asks: &mut [u16; GROUPS])
        ensures { AskTold catalog.now self.now asks.new }
    {
        let opened = Opened::open(catalog);
        for j in 0..self.groups.len() {
            let name = self.text(j);
            asks[j] = request_size(&opened, name) as u16;
        }
    }
}
