//! Databases that observations make.

mod joined;
