//! Views made of texts, one after another.
ghost use Rattle.std.specs.Prelude.{◌≡◌, ◌<◌, ◌^◌, [], IfOk, OnOk, OnErr, None, Some, length, map};
ghost use Rattle.tb_value.specs.See.{datum};
ghost use Rattle.tb_view.specs.Promise.Layout.{buffers_of, text_view_array};
ghost use Rattle.tb_view.specs.Layout.{building_of, with_nulls, with_row, with_rows};
ghost use Rattle.tb_view.specs.RunViews.{data_runs, run_building, text_runs, with_run};
ghost use Rattle.tb_value.specs.Promise.Texts.{text_of};
ghost use Rattle.tb_view.specs.View.{texts};

use crate::filling::Filling;
use crate::view::View;
use crate::view_chunk::ViewChunk;
use std::alloc::Global;
use std::marker::Model;
use tb_value::{AnyValue, OutOfMemory};

/// A chunk of views to which texts are pushed. Those longer than 12 bytes stand in its buffers in order, and a new buffer begins
/// where one would pass 2^32 - 1 bytes. After a refusal a builder is as it was.
#[derive(Drop)]
pub struct ViewBuilder {
    views: Vec<Option<View>>,
    filling: Filling,
}

impl Model for ViewBuilder {
    ghost use Rattle.tb_view.specs.Layout.{Building, all_of};
    ghost use Rattle.tb_view.specs.View.{IsViewOrNone, texts};
    ghost use Rattle.std.specs.List.{All};

    ghost Value = { Building };

    ghost view = { λ b. record { rows = texts (all_of b.filling) b.views.items; views = b.views.items; laid = b.filling } };

    ghost invariant = { λ b. All (IsViewOrNone (all_of b.filling)) b.views.items };
}

impl ViewBuilder {
    /// The builder of no row, with room for as many as are given.
    pub fn with_capacity(alloc: Global, rows: usize) -> Result<ViewBuilder, OutOfMemory>
        ensures { IfOk result (λ b. b ≡ building_of []) }
    {
        Ok(ViewBuilder {
            views: Vec::with_capacity(alloc, rows)?,
            filling: Filling::empty(alloc),
        })
    }

    /// Appends a text. One of 2^32 bytes or more is refused.
    pub fn push(&mut self, alloc: Global, text: &[u8]) -> Result<(), OutOfMemory>
        ensures ok { OnOk result (self.new ≡ with_row self.old (Some text.now)) }
        ensures fits { OnOk result (length text.now < 2 ^ 32) }
        ensures err { OnErr result (self.new ≡ self.old) }
    {
        self.views.reserve(1)?;
        let view = self.filling.view_of(alloc, text)?;
        self.views.push_reserved(Some(view));
        Ok(())
    }

    /// Appends a text so many times. Its bytes are put once.
    pub fn push_times(
        &mut self,
        alloc: Global,
        text: &[u8],
        times: usize,
    ) -> Result<(), OutOfMemory>
        ensures ok { OnOk result (self.new ≡ with_rows self.old text.now times) }
        ensures fits { OnOk result (length text.now < 2 ^ 32) }
        ensures err { OnErr result (self.new ≡ self.old) }
    {
        self.views.reserve(times)?;
        let view = self.filling.view_of(alloc, text)?;
        let rows = self.views.len() + times;
        self.views.resize(rows, Some(view))?;
        Ok(())
    }

    /// Appends a row without a text.
    pub fn push_null(&mut self) -> Result<(), OutOfMemory>
        ensures ok { OnOk result (self.new ≡ with_row self.old None) }
        ensures err { OnErr result (self.new ≡ self.old) }
    {
        self.views.push(None)?;
        Ok(())
    }

    /// Appends rows without a text.
    pub fn push_nulls(&mut self, times: usize) -> Result<(), OutOfMemory>
        ensures ok { OnOk result (self.new ≡ with_nulls self.old times) }
        ensures err { OnErr result (self.new ≡ self.old) }
    {
        self.views.reserve(times)?;
        let all = self.views.len() + times;
        self.views.resize(all, None)?;
        Ok(())
    }

    /// The chunk of the rows.
    pub fn finish(self, alloc: Global) -> Result<ViewChunk, OutOfMemory>
        ensures texts { IfOk result (λ c. texts c.buffers.items c.views.items ≡ self.rows) }
        ensures views { IfOk result (λ c. c.views.items ≡ self.views) }
        ensures buffers { IfOk result (λ c. c.buffers.items ≡ buffers_of self.laid) }
    {
        let ViewBuilder { views, filling } = self;
        let buffers = filling.finish(alloc)?;
        Ok(ViewChunk { views, buffers })
    }
}

// Appends the text or the bytes of a value; of any other value, a row without a text.
fn push_value(alloc: Global, builder: &mut ViewBuilder, value: &AnyValue) -> Result<(), OutOfMemory>
    ensures { OnOk result (builder.new ≡ with_row builder.old (text_of (datum value.now))) }
{
    match value {
        AnyValue::String(text) => builder.push(alloc, text.as_str().as_bytes()),
        AnyValue::Binary(bytes) => builder.push(alloc, bytes.as_slice()),
        _ => builder.push_null(),
    }
}

// Appends a run: the text or the bytes of its value once, and as many views as its count says. One of no row puts nothing.
#[tactic(auto, using(crate::proofs::RunViews::run_of_text, crate::proofs::RunViews::run_of_none))]
fn push_run(
    alloc: Global,
    builder: &mut ViewBuilder,
    value: &AnyValue,
    times: usize,
) -> Result<(), OutOfMemory>
    ensures { OnOk result (builder.new ≡ with_run builder.old (text_of (datum value.now), times)) }
{
    if times == 0 {
        return Ok(());
    }
    match value {
        AnyValue::String(text) => builder.push_times(alloc, text.as_str().as_bytes(), times),
        AnyValue::Binary(bytes) => builder.push_times(alloc, bytes.as_slice(), times),
        _ => builder.push_nulls(times),
    }
}

impl ViewChunk {
    /// The chunk of the texts and bytes among the values of these runs, with room for so many rows.
    pub fn from_runs(
        alloc: Global,
        runs: &[(AnyValue, u64)],
        rows: usize,
    ) -> Result<ViewChunk, OutOfMemory>
        ensures texts { IfOk result (λ c.
            texts c.buffers.items c.views.items
            ≡ (run_building (text_runs (data_runs runs.now))).rows) }
        ensures views { IfOk result (λ c.
            c.views.items ≡ (run_building (text_runs (data_runs runs.now))).views) }
        ensures buffers { IfOk result (λ c.
            c.buffers.items ≡ buffers_of (run_building (text_runs (data_runs runs.now))).laid) }
    {
        let mut builder = ViewBuilder::with_capacity(alloc, rows)?;
        for (value, times) in runs {
            push_run(alloc, &mut builder, value, *times as usize)?;
        }
        builder.finish(alloc)
    }

    /// The chunk of the texts and bytes among these values.
    pub fn from_values(alloc: Global, values: &[AnyValue]) -> Result<ViewChunk, OutOfMemory>
        ensures texts { IfOk result (λ c.
            texts c.buffers.items c.views.items ≡ map (λ v. text_of (datum v)) values.now) }
        ensures views { IfOk result (λ c.
            c.views.items ≡ (text_view_array (map (λ v. text_of (datum v)) values.now)).views) }
        ensures buffers { IfOk result (λ c.
            c.buffers.items ≡ (text_view_array (map (λ v. text_of (datum v)) values.now)).buffers) }
    {
        let mut builder = ViewBuilder::with_capacity(alloc, values.len())?;
        for value in values {
            push_value(alloc, &mut builder, value)?;
        }
        builder.finish(alloc)
    }
}
