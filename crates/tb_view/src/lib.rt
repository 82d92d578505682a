//! Texts as views: 16 bytes each, which hold a short text or the place of a longer one in a buffer. How texts are laid out in
//! buffers, and the chunks of such views.
#![tactic(auto)]

mod filling;
mod view;
mod view_builder;
mod view_chunk;

pub use view::View;
pub use view_builder::ViewBuilder;
pub use view_chunk::ViewChunk;
