//! The moves of names in order, each sorted when it is first needed.

ghost use Rattle.std.specs.Prelude.{◌≡◌, ◌≢◌, ◌<◌, [], ℕ, List, Some, IfOk, OnOk, length, slice_get};
ghost use Rattle.fst_nbest.specs.Entries.{AreOrders, OrdersGrow, list_at};
ghost use Rattle.fst_nbest.specs.Words.{IsAhead};

use crate::system::System;
use std::alloc::{AllocError, Global};
use std::marker::Model;

/// For each name no moves yet, or all of its moves in order.
#[derive(Drop)]
pub(crate) struct Orders {
    lists: Vec<Vec<u32>>,
}

impl Model for Orders {
    ghost use Rattle.std.specs.Prelude.{List, ℕ, map};

    ghost Value = { List (List ℕ) };

    ghost view = { λ o. map (λ l. l.items) o.lists.items };
}

impl Orders {
    /// No moves yet, for so many names.
    pub(crate) fn new(alloc: Global, names: u32) -> Result<Orders, AllocError>
        ensures size { IfOk result (λ o. length o ≡ names) }
        ensures empty { IfOk result (λ o. (x : ℕ) → list_at o x ≡ []) }
    {
        let mut lists = Vec::with_capacity(alloc, names as usize)?;
        for _ in 0..names {
            lists.push(Vec::new(alloc))?;
        }
        Ok(Orders { lists })
    }

    /// The moves of a name.
    pub(crate) fn of(&self, name: u32) -> &[u32]
        requires { name < length self.now }
        ensures { result.now ≡ list_at self.now name }
    {
        let list = &self.lists[name as usize];
        list.as_slice()
    }

    /// Sorts the moves of a name, if they are not sorted yet.
    pub(crate) fn prepare<D: Copy, S: System<D>>(
        &mut self,
        alloc: Global,
        system: &S,
        name: u32,
    ) -> Result<(), AllocError>
        requires name { name < length self.old }
        requires size { length self.old ≡ S.size system.now }
        requires live { IsAhead S.kind (S.words system.now) name (S.dist system.now name) (S.count system.now name) }
        requires orders { AreOrders S.kind (S.words system.now) (S.dist system.now) (S.count system.now) self.old }
        ensures orders { OnOk result (AreOrders S.kind (S.words system.now) (S.dist system.now) (S.count system.now) self.new) }
        ensures size { length self.new ≡ length self.old }
        ensures there { OnOk result (list_at self.new name ≢ []) }
        ensures grow { OnOk result (OrdersGrow self.old self.new) }
    {
        if self.of(name).len() > 0 {
            return Ok(());
        }
        // What holds of the words.
        let _names = system.name_count();
        let moves = system.moves(alloc, name)?;
        self.lists[name as usize] = moves;
        Ok(())
    }
}
