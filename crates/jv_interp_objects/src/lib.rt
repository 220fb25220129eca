//! Objects and arrays that are made, read and stored in, in words (JVMS 6.5: new, newarray, anewarray, multianewarray, ldc, ldc2_w,
//! arraylength, iaload, iastore and their kin; 2.10, 5.1); and what class or array type an object is (instanceof, checkcast, athrow,
//! aastore); and the texts of string literals by numbers (4.4.3). A room of `jv_interp`.
#![tactic(auto)]

mod arrays;
mod asking;
mod blocks;
mod constants;
mod host_objects;
mod literals;
mod loads;
mod making;
mod multiple;
mod naming;
mod nested;
mod objects;
mod stores;
mod storing;
mod text_blocks;
mod texts;
mod throwing;
mod types;
mod units;

pub use arrays::new_base_array;
pub use asking::{checkcast, instanceof};
pub use constants::{push_int, push_long, push_string};
pub use host_objects::{array_like, class_name};
pub use literals::literal;
pub use loads::{array_length, load, load_long};
pub use making::{anewarray, create, multianewarray};
pub use stores::{store_byte, store_int, store_long};
pub use storing::aastore;
pub use texts::{ClassTexts, Texts};
pub use throwing::athrow;
pub use types::{NumberedType, is_instance};
