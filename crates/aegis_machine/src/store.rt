//! What a run keeps on the chip.
ghost use Rattle.std.specs.Prelude.{◌≡◌, IfOk};
ghost use Rattle.aegis_machine.specs.Stores.{HasKeys, IsNewStore};

use crate::held::Held;
use aegis_num::{Keys, OutOfMemory};
use aes_pad::Aes;
use hash_tree::Tree;
use image_file::Image;
use line_cache::{LineCache, Lines};
use secure_memory::PrivatePad;
use stamp_log::StampLog;
use std::alloc::Global;
use std::marker::Model;

/// All lines, the sums of the log, the keys and the held bytes of one run.
#[derive(Drop)]
pub struct Store<L: Lines> {
    tree: Tree<L, PrivatePad>,
    log: StampLog,
    held: Held,
}

impl<L: Lines> Model for Store<L> {
    ghost use Rattle.aegis_machine.specs.Stores.{StoreParts};

    ghost Value = { StoreParts L };

    ghost view = { λ s. record { tree = s.tree; log = s.log; held = s.held } };
}

impl<L: Lines> Store<L> {
    // Its tree, its log and the bytes that it holds.
    pub(crate) fn apart(self) -> (Tree<L, PrivatePad>, StampLog, Held)
        ensures tree { result.0 ≡ self.tree }
        ensures log { result.1 ≡ self.log }
        ensures held { result.2 ≡ self.held }
    {
        let Store { tree, log, held } = self;
        (tree, log, held)
    }
}

impl Store<LineCache> {
    /// A store for an image, with these keys. All memory that a run needs is taken here.
    pub fn new(alloc: Global, image: &Image, keys: Keys) -> Result<Store<LineCache>, OutOfMemory>
        ensures fresh { IfOk result (IsNewStore ⟦<LineCache as Lines>⟧.lines image.now.layout) }
        ensures keys { IfOk result (HasKeys keys) }
    {
        let layout = image.layout;
        let lines = LineCache::new(alloc)?;
        let log = StampLog::new(alloc, layout.log, keys.log)?;
        let veil = PrivatePad::new(Aes::new(&keys.pad), layout);
        Ok(Store {
            tree: Tree::new(lines, veil, layout),
            log,
            held: Held::new(),
        })
    }
}
