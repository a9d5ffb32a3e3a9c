mod files;
mod memory;
mod outputs;
mod ratios;
mod watched_files;
