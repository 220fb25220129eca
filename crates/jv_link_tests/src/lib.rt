//! Tests of the loader, which show once on real bytes what its contracts say; and of linking: tables of rows, each with a use at a site and
//! what it comes to, over guests of a few classes.
#![tactic(auto)]

#[cfg(test)]
mod assign;
#[cfg(test)]
mod class;
#[cfg(test)]
mod closed;
#[cfg(test)]
mod defaults;
#[cfg(test)]
mod field;
#[cfg(test)]
mod files;
#[cfg(test)]
mod guest;
#[cfg(test)]
mod kept;
#[cfg(test)]
mod layout;
#[cfg(test)]
mod library;
#[cfg(test)]
mod load;
#[cfg(test)]
mod loaded_class;
#[cfg(test)]
mod method;
#[cfg(test)]
mod named;
#[cfg(test)]
mod order;
#[cfg(test)]
mod overriding;
#[cfg(test)]
mod row;
#[cfg(test)]
mod site;
#[cfg(test)]
mod special;
#[cfg(test)]
mod system;
#[cfg(test)]
mod tasks;
#[cfg(test)]
mod uses;
