mod files;
mod meaning;
mod runs;
